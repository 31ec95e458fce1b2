// The printing program: reads one stored chain from standard input and prints its weights and shares, or the one line of its refusal.
// Where a read or a write fails it says so on standard error, and after a failed read it prints nothing. Its exit status is 0 even then.
#![tactic(auto)]

fn main(rt: HostRuntime) {
    input::run(
        &rt,
        &mut rt.stdin(),
        "shares",
        &mut report::text_buffer(),
        report::report,
    );
}
