// Standard input, standard output and standard error. A call of the system that fails is told apart from the end of the input and from a write that took
// all: an answer here is the system's error or a count, and an error has no count. What the system's read and write do is trusted.
#![tactic(auto)]

ghost use Rattle.std.specs.Prelude.{◌≡◌, ◌+◌, ◌^◌, ◌≤◌, ◌<◌, length, IfOk};
ghost use Rattle.stdio.specs.Answers.{read_on, write_answer};

use std::io;
use std::io::{Print, Read, Stderr, Stdin, Stdout};
use std::ops::ControlFlow;

// Reads standard input into a buffer, to the end of the input or until the buffer is full. The answer is how many bytes the input came to.
pub fn read(mut stdin: Stdin, buffer: &mut [u8]) -> io::Result<usize>
    ensures { IfOk result (λ bytes. bytes ≤ length buffer.new) }
{
    let mut done = 0;
    // By what each read gives.
    while done < buffer.len() {
        match read_on(done, stdin.read(&mut buffer[done..]))? {
            ControlFlow::Continue(count) => done = count,
            ControlFlow::Break(count) => return Ok(count),
        }
    }
    Ok(done)
}

// Hands bytes to standard output, and answers how many: all. Where a write fails, some of them may have been taken, from the first on.
pub fn write(stdout: Stdout, bytes: &[u8]) -> io::Result<usize>
    ensures { IfOk result (λ count. count ≡ length bytes.now) }
{
    write_answer(bytes.len(), Print::write_all(&stdout, bytes))
}

// Hands a line to standard error.
pub fn complain(stderr: Stderr, line: &[u8]) {
    let _ = Print::write_all(&stderr, line);
}

// How reading goes on after one read of the system, where so many bytes were read before it: on with so many in all, or over with so many. A read of no bytes
// is the end of the input.
fn read_on(done: usize, answer: io::Result<usize>) -> io::Result<ControlFlow<usize, usize>>
    requires { IfOk answer (λ got. done + got < 2 ^ 64) }
    ensures { result ≡ read_on done answer }
{
    let got = answer?;
    if got == 0 {
        return Ok(ControlFlow::Break(done));
    }
    Ok(ControlFlow::Continue(done + got))
}

// What handing over so many bytes comes to by the system's answer.
fn write_answer(count: usize, answer: io::Result<()>) -> io::Result<usize>
    ensures { result ≡ write_answer count answer }
{
    answer?;
    Ok(count)
}
