// The program: prints the plan of the ticket on standard input, or its refusal.
// A ticket is settled by the bytes that the input buffer holds (`front_settles`, crates/printing/proofs/Main.antt), and no more are looked at.
#![tactic(auto)]

use std::io;

fn main(rt: HostRuntime) -> io::Result<()> {
    let mut buffer = printing::input_buffer();
    let ticket = standard_input::read_full(&rt, &mut buffer)?;
    let mut text = printing::text_buffer();
    let bytes = printing::print_whole(ticket, &mut text);
    rt.write_all(&text[..bytes])
}
