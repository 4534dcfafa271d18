// Reads a script from standard input, runs it over memory alone, and prints the account.
#![tactic(auto)]

mod account;

use account::account_of;
use board::ram::Ram;
use console::run;
use std::io;

fn main(rt: HostRuntime) -> io::Result<()> {
    run(&rt, |heap, bytes, script| {
        account_of(heap, &mut Ram::new(bytes), script)
    })
}
