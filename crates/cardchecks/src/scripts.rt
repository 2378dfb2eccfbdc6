use std::test::Fail;
use transcripts::transcript;

// A script, and what is printed of it, or the words for its bad line.
const SCRIPTS: [(&str, &str); 43] = [
    ("", ""),
    ("# nothing\n\n   \n", ""),
    ("reservoir 1 0", "reservoir ok\n"),
    (
        "  reservoir  1   18446744073709551615#x\n",
        "reservoir ok\n",
    ),
    (
        "reservoir 1 0xffffffffffffffff\nslot 65535\n",
        "reservoir ok\nslot refused 6 3 65535\n",
    ),
    (
        "reservoir 65535 0\nreport\n",
        "reservoir refused 3 3 65535\nreport skipped\n",
    ),
    (
        "report\n",
        "line 1: expected reservoir or stack before any other command",
    ),
    (
        "\n\nreserve 1 0\n",
        "line 3: expected reservoir or stack before any other command",
    ),
    (
        "reservoir 1 0\nReport\nslot\n",
        "line 2: expected reservoir, stack, insert, slot or report",
    ),
    ("reservoir 1\n", "line 1: expected reservoir M SEED"),
    ("reservoir 65536 0\n", "line 1: expected M from 0 to 65535"),
    ("reservoir +1 0\n", "line 1: expected M from 0 to 65535"),
    (
        "reservoir 1 18446744073709551616\n",
        "line 1: expected SEED below 2^64, decimal or hex after 0x",
    ),
    (
        "reservoir 1 0x\n",
        "line 1: expected SEED below 2^64, decimal or hex after 0x",
    ),
    (
        "reservoir 1 0\ninsert 1 2\n",
        "line 2: expected insert SECOND SATELLITE OFFSET",
    ),
    (
        "reservoir 1 0\ninsert 4294967296 0 0\n",
        "line 2: expected SECOND from 0 to 4294967295",
    ),
    (
        "reservoir 1 0\ninsert 0 -1 0\n",
        "line 2: expected SATELLITE from 0 to 4294967295",
    ),
    (
        "reservoir 1 0\ninsert 0 0 2147483648\n",
        "line 2: expected OFFSET from -2147483648 to 2147483647",
    ),
    ("reservoir 1 0\nslot 1 2\n", "line 2: expected slot I"),
    (
        "reservoir 1 0\nslot x\n",
        "line 2: expected I from 0 to 65535",
    ),
    (
        "reservoir 1 0\nreport now\n",
        "line 2: expected report alone",
    ),
    (
        "stack image 3\nformat 2 1 0\nmount\nwake\ninsert 100 1 10\ninsert 1 32 0\nreport\nclose\nslot 0\n",
        "format ok\nmount ok 0\nwake ok\ninsert ok 0\ninsert refused 5 4 4\ncounted 1 settled 0 waiting none open\nslot 0: 100 1 10\nmean 10.000 ns over 1\nclose ok\nslot out of turn\n",
    ),
    (
        "stack image 3\nkind event\nformat 2 1 0\nwake\ninsert 7 lost 31\ninsert 8 gained 0\ninsert 9 holdover\ninsert 10 lost 32\nslot 0\ncommit\nrefresh\nreport\n",
        "format ok\nwake ok\ninsert ok 0\ninsert ok 1\ninsert ok 1\ninsert refused 5 4 5\nslot ok 7 lost 31\ncommit ok 3\nrefresh ok 1\ncounted 3 settled 3 waiting none open\nslot 0: 7 lost 31\nslot 1: 9 holdover\n",
    ),
    (
        "stack image 3\nkind offset\nkind event\nformat 1 1 0\ncard now\n",
        "line 5: expected no word after this one",
    ),
    (
        "stack image 3\nkind\n",
        "line 2: expected kind offset or kind event",
    ),
    (
        "stack image 3\nkind events\n",
        "line 2: expected kind offset or kind event",
    ),
    (
        "stack image 3\nformat 2 1\n",
        "line 2: expected format M LOG SEED",
    ),
    (
        "stack image 3\nformat 2 256 0\n",
        "line 2: expected LOG from 0 to 255",
    ),
    (
        "stack mirror bench 6\nfuses 0 4294967295 4294967296\n",
        "line 2: expected F from 0 to 4294967295",
    ),
    (
        "stack mirror bench 6\nfuses\nchoices 255 256\n",
        "line 3: expected C from 0 to 255",
    ),
    (
        "stack image 3\nkind event\nformat 2 1 0\nwake\ninsert 7 lost\n",
        "line 5: expected insert SECOND lost SATELLITE, insert SECOND gained SATELLITE or insert SECOND holdover",
    ),
    (
        "stack image 3\nkind event\nformat 2 1 0\nwake\ninsert 7 found 1\n",
        "line 5: expected insert SECOND lost SATELLITE, insert SECOND gained SATELLITE or insert SECOND holdover",
    ),
    (
        "stack image 3\nkind event\nformat 2 1 0\nwake\ninsert 7 holdover 1\n",
        "line 5: expected insert SECOND lost SATELLITE, insert SECOND gained SATELLITE or insert SECOND holdover",
    ),
    (
        "stack image 3\nkind event\nformat 2 1 0\nwake\ninsert 7 lost x\n",
        "line 5: expected SATELLITE from 0 to 4294967295",
    ),
    (
        "stack bench 3\n",
        "line 1: expected stack image BLOCKS, stack mirror image BLOCKS or stack mirror bench BLOCKS",
    ),
    (
        "stack image 65537\n",
        "line 1: expected BLOCKS from 0 to 65536",
    ),
    (
        "stack image 3\nboot\n",
        "line 2: expected reservoir, stack, fuses, choices, kind, format, mount, wake, insert, commit, refresh, slot, close, report or card",
    ),
    (
        "stack image 3\nmount now\n",
        "line 2: expected no word after this one",
    ),
    (
        "stack image 3\nfuses 1\n",
        "line 2: expected fuses and choices of a bench alone",
    ),
    (
        "stack mirror bench 6\nformat 2 1 0\nkind event\n",
        "line 3: expected fuses, choices and kind before the first format",
    ),
    (
        "stack image 3\nmount\n",
        "line 2: expected format before any call or report",
    ),
    (
        "stack image 3\nformat 2 1 0\nwake\nformat 2 1 0\n",
        "line 4: expected close before a further format",
    ),
    (
        "stack image 3\ncard\nmount\n",
        "line 3: expected reservoir or stack after card",
    ),
];

#[test]
fn scripts_print_or_name_their_first_bad_line(rt: HostRuntime) -> Result<(), Fail> {
    for (script, said) in &SCRIPTS {
        let text = match transcript(rt.alloc(), script) {
            Ok(out) => out,
            Err(unread) => format!(in rt.alloc(); "{unread}")?,
        };
        assert_eq!(rt; text.as_str(), *said);
    }
    Ok(())
}
