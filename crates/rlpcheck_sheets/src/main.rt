// Says of each file of data/ what rlpcheck says, and of one that is not there.
#![tactic(auto)]

fn main(rt: HostRuntime) {
    for name in [
        "p6",
        "p9",
        "p13",
        "empty",
        "largest",
        "too-large",
        "missing",
    ] {
        verdict::say_file(&rt, name.as_bytes());
    }
}
