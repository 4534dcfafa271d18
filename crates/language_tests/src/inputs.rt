// What is taken of an input, and the bytes that a script runs over.
use console::{new_ram, read_script};
use std::io;
use std::test::Fail;

#[test]
fn a_short_input_is_taken_whole(rt: HostRuntime) -> Result<(), Fail> {
    let input: &[u8] = b"(peek 0)\n(tally)";
    let script = read_script(rt.alloc(), input)?;
    assert_eq!(rt; script.as_slice(), input);
    Ok(())
}

// A script of 65,537 bytes is too long; so no more of an input is taken.
#[test]
fn of_a_long_input_the_first_bytes_are_taken(rt: HostRuntime) -> Result<(), Fail> {
    let mut input = vec![in rt.alloc(); b'1'; 70_000]?;
    input[65_536] = b'2';
    input[65_537] = b'3';
    let script = read_script(rt.alloc(), input.as_slice())?;
    assert_eq!(rt; script.len(), 65_537);
    assert_eq!(rt; script.as_slice(), &input[..65_537]);
    Ok(())
}

// An input without an end is not read on for ever.
#[test]
fn of_an_endless_input_as_much_is_taken(rt: HostRuntime) -> Result<(), Fail> {
    let script = read_script(rt.alloc(), io::repeat(b'1'))?;
    assert_eq!(rt; script.len(), 65_537);
    Ok(())
}

#[test]
fn a_new_ram_is_zero(rt: HostRuntime) -> Result<(), Fail> {
    let bytes = new_ram(rt.alloc())?;
    assert_eq!(rt; bytes.len(), 32_768);
    assert!(rt; bytes.iter().all(|byte| *byte == 0));
    Ok(())
}
