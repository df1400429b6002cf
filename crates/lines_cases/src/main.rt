// The cases of this folder's stdin, fed one character at a time with room for one reply.
#![tactic(auto)]

use lines::hex::REPLY_LINE;
use lines::{Fed, State};
use std::io;
use std::io::{BufReader, BufWriter, Read, Write};

// One character, and what it prints. Two functions of an output and a state: a struct for both would be no shorter.
fn step<W: Write>(out: &mut W, state: State, c: u8) -> io::Result<State> {
    let mut text = [0u8; REPLY_LINE];
    let Fed { state, made, .. } = lines::feed(state, &[c], &mut text);
    out.write_all(&text[..made])?;
    Ok(state)
}

// The last line.
fn end<W: Write>(out: &mut W, state: State) -> io::Result<()> {
    let mut text = [0u8; REPLY_LINE];
    let Fed { made, .. } = lines::finish(state, &mut text);
    out.write_all(&text[..made])
}

fn main(rt: HostRuntime) -> io::Result<()> {
    let alloc = rt.alloc();
    let mut out = BufWriter::new(alloc, rt.stdout())?;
    let mut state = lines::start();
    for c in BufReader::new(alloc, rt.stdin())?.bytes() {
        state = step(&mut out, state, c?)?;
    }
    end(&mut out, state)?;
    out.flush()
}

#[cfg(test)]
mod tests {
    use lines::hex::REPLY_LINE;

    // A state is copied where it is passed by value: the one that was passed still has its line, an odd count of digits.
    #[test]
    fn answers_a_passed_state_again(rt: HostRuntime) {
        let damaged = *b"11FF000000000000000000000000\n";
        let mut first = [0u8; REPLY_LINE];
        let mut second = [0u8; REPLY_LINE];
        let state = lines::feed(lines::start(), b"5", &mut first).state;
        let [one, two] = [state, state];
        lines::finish(one, &mut first);
        lines::finish(one, &mut second);
        assert_eq!(rt; [first, second], [damaged; 2]);
        first = [0u8; REPLY_LINE];
        lines::feed(two, b"\n", &mut first);
        assert_eq!(rt; first, damaged);
    }
}
