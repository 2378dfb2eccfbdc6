use crate::looking::same;
use std::test::Fail;
use storetranscripts::transcript;

// A script of store calls, and what is printed of it, or the words for its bad line. In the first, the power is cut when
// the write comes to the second copy, and the restart after it tears that copy and mends it.
const PLAYS: [(&str, &str); 4] = [
    (
        "stack mirror bench 3\nfuses 2\nchoices 2\nread 0\nrestart\nwrite 0 7\nread 1\nread 0\nflush\nrestart\nread 0\n",
        "read refused 21 2 0\nrestart ok\nwrite refused 21 1 0\nread refused 1 2 1\nread refused 21 2 0\nflush refused 21 2 0\nrestart ok\nread ok 7\n",
    ),
    (
        "stack bench 2\nchoices 2\nrestart\nwrite 1 255\nflush\nwrite 1 254\nrestart\nread 1\nread 0 # zero\nstack image 1\nflush\nrestart\nwrite 0 8\nrestart\nread 0",
        "restart ok\nwrite ok\nflush ok\nwrite ok\nrestart ok\nread refused 22 1 1\nread ok 0\nflush refused 21 1 0\nrestart ok\nwrite ok\nrestart ok\nread ok 8\n",
    ),
    (
        "stack image 1\nrestart\nread 0\nread 0 1\nwrite 0 256\n",
        "line 4: expected read B",
    ),
    ("", ""),
];

#[test]
fn store_scripts_print_or_name_their_first_bad_line(rt: HostRuntime) -> Result<(), Fail> {
    for (case, (script, said)) in PLAYS.iter().enumerate() {
        let text = match transcript(rt.alloc(), script) {
            Ok(out) => out,
            Err(unread) => format!(in rt.alloc(); "{unread}")?,
        };
        same(&rt, text.as_str(), said, case);
    }
    Ok(())
}
