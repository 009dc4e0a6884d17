// The program (document 01, "Quality figure and program"): standard input to standard output. One byte more than an input may have is read, so that a
// longer one is known. A read or a write that fails is told on standard error; after a failed read nothing is printed.
#![tactic(auto)]

fn main(rt: HostRuntime) {
    let mut input = [0u8; session::MAX_INPUT + 1];
    let Ok(read) = stdio::read(rt.stdin(), &mut input) else {
        stdio::complain(rt.stderr(), b"breaker: reading failed\n");
        return;
    };
    if printing::print(rt.stdout(), &input[..read]).is_err() {
        stdio::complain(rt.stderr(), b"breaker: writing failed\n");
    }
}
