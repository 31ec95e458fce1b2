// The cleaning program: reads one stored chain from standard input and writes it without its entries of rate 0, or the one line of its refusal.
// Where a read or a write fails it says so on standard error, and after a failed read it writes nothing. Its exit status is 0 even then.
#![tactic(auto)]

fn main(rt: HostRuntime) {
    input::run(
        &rt,
        &mut rt.stdin(),
        "clean",
        &mut filing::file_buffer(),
        cleaning::clean,
    );
}
