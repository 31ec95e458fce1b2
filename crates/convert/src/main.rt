// The converting program: reads one stored chain from standard input and writes it in the other form, or the one line of its refusal.
// Where a read or a write fails it says so on standard error, and after a failed read it writes nothing. Its exit status is 0 even then.
#![tactic(auto)]

fn main(rt: HostRuntime) {
    input::run(
        &rt,
        &mut rt.stdin(),
        "convert",
        &mut filing::file_buffer(),
        conversion::convert,
    );
}
