//! The bytes of sequences, in whose order productions of one function with equal numbers stand.
use gft_core::{NoMemory, Shared, Sym};
use sqlite_items::Items;
use std::alloc::Global;

fn add_number(bytes: &mut Vec<u8>, number: u32) -> Result<(), NoMemory> {
    for byte in number.to_be_bytes() {
        bytes.push(byte)?;
    }
    Ok(())
}

fn add_count(bytes: &mut Vec<u8>, count: usize) -> Result<(), NoMemory> {
    add_number(bytes, u32::try_from(count).unwrap_or(u32::MAX))
}

fn add_symbol(bytes: &mut Vec<u8>, symbol: &Sym) -> Result<(), NoMemory> {
    match symbol {
        Sym::Tok(token) => {
            let text = token.as_str();
            bytes.push(0)?;
            add_count(bytes, text.len())?;
            bytes.extend_from_slice(text.as_bytes())?;
            Ok(())
        }
        Sym::Arg(argument, component) => {
            bytes.push(1)?;
            add_number(bytes, *argument)?;
            add_number(bytes, *component)
        }
    }
}

fn add_sequence(bytes: &mut Vec<u8>, seq: &[Sym]) -> Result<(), NoMemory> {
    add_count(bytes, seq.len())?;
    for symbol in seq {
        add_symbol(bytes, symbol)?;
    }
    Ok(())
}

/// The bytes of the sequences, one after the other.
pub fn encoded(alloc: Global, seqs: &[Shared<Items<Sym>>]) -> Result<Vec<u8>, NoMemory> {
    let mut bytes = Vec::new(alloc);
    for seq in seqs {
        add_sequence(&mut bytes, seq.get().as_slice())?;
    }
    Ok(bytes)
}
