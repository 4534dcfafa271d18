// What both programs share: a script comes from standard input, its account goes to standard output.
#![tactic(auto)]

ghost use Rattle.std.specs.Prelude.{◌≡◌, IfOk, IfSome, Ok, OnOk, replicate, take};
ghost use Rattle.script.specs.Reader.{script_of};

use script::reader::LONGEST;
use std::alloc::{AllocError, Global};
use std::io;
use std::io::Read;

// The bytes of RAM, all zero at the start.
const RAM: usize = 32_768;

// As much of the input as tells what the script reads as: one byte more than the longest script tells that there is more.
pub fn read_script<I: Read + Drop>(heap: Global, input: I) -> io::Result<Vec<u8>>
    ensures first { IfOk result (λ v. IfSome (I.Read.remaining input) (λ bytes. v.items ≡ take 65537 bytes)) }
    ensures enough { IfOk result (λ v. IfSome (I.Read.remaining input) (λ bytes. script_of v.items ≡ script_of bytes)) }
{
    let mut script = Vec::new(heap);
    input.take(LONGEST as u64 + 1).read_to_end(&mut script)?;
    Ok(script)
}

// The bytes of a new RAM.
pub fn new_ram(heap: Global) -> Result<Vec<u8>, AllocError>
    ensures { IfOk result (λ v. v.items ≡ replicate 32768 0) }
{
    vec![in heap; 0u8; RAM]
}

// Reads a script from standard input, runs it over a new RAM, and prints the account. What is printed is what `account`
// told of a script over bytes that are all zero.
pub fn run<R, F>(rt: &R, account: F) -> io::Result<()>
where
    R: Input + Print + AllocGlobal,
    F: FnOnce(Global, &mut [u8], &[u8]) -> Result<String, AllocError>,
    requires { F.IsAlwaysCallable account }
    ensures { OnOk result ((heap : _) × (bytes : _) × (script : _) × (text : _) × (left : _) × (bytes.now ≡ replicate 32768 0) × F.post account heap bytes script (Ok text) left) }
{
    let heap = rt.alloc();
    let script = read_script(heap, rt.reader())?;
    let mut bytes = new_ram(heap)?;
    let text = account(heap, bytes.as_mut_slice(), script.as_slice())?;
    rt.print(text)
}
