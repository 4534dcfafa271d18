// Reads a script from standard input, runs it on a whole twin, and prints the account.
#![tactic(auto)]

mod account;

use account::account_of;
use console::run;
use std::io;

fn main(rt: HostRuntime) -> io::Result<()> {
    run(&rt, account_of)
}
