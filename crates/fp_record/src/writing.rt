//! Fields at the end of what was written so far.

ghost use Rattle.std.specs.Prelude.{◌≡◌, ◌++◌, OnOk};
ghost use Rattle.std.specs.Int.{w16, w32, w64, to_be_bytes};
ghost use Rattle.fp_definition.specs.Key.{key_bytes};
ghost use Rattle.fp_record.specs.WellFormed.{IsKey, IsText};
ghost use Rattle.fp_record.specs.Encoding.{encoding_of_key, encoding_of_definition};

use byteorder::{BigEndian, ByteOrder};
use fp_definition::{Definition, FlagKey};
use std::alloc::AllocError;

pub fn put_u16(out: &mut Vec<u8>, number: u16) -> Result<(), AllocError>
    ensures { OnOk result (out.new.items ≡ out.old.items ++ to_be_bytes w16 number) }
{
    let mut field = [0; 2];
    BigEndian::write_u16(&mut field, number);
    out.extend_from_slice(&field)
}

pub fn put_u32(out: &mut Vec<u8>, number: u32) -> Result<(), AllocError>
    ensures { OnOk result (out.new.items ≡ out.old.items ++ to_be_bytes w32 number) }
{
    let mut field = [0; 4];
    BigEndian::write_u32(&mut field, number);
    out.extend_from_slice(&field)
}

pub fn put_u64(out: &mut Vec<u8>, number: u64) -> Result<(), AllocError>
    ensures { OnOk result (out.new.items ≡ out.old.items ++ to_be_bytes w64 number) }
{
    let mut field = [0; 8];
    BigEndian::write_u64(&mut field, number);
    out.extend_from_slice(&field)
}

/// A key behind its length.
#[tactic(auto, unfolding(crate::specs::Encoding::encoding_of_key))]
pub fn put_key(out: &mut Vec<u8>, key: &FlagKey) -> Result<(), AllocError>
    ensures written { OnOk result
        (out.new.items ≡ out.old.items ++ encoding_of_key (key_bytes key.now)) }
    ensures lawful { IsKey (key_bytes key.now) }
{
    let text = key.as_str();
    put_u16(out, text.len() as u16)?;
    out.extend_from_slice(text.as_bytes())
}

/// A definition's canonical text behind its length.
#[tactic(auto, unfolding(crate::specs::Encoding::encoding_of_definition))]
pub fn put_definition(out: &mut Vec<u8>, definition: &Definition) -> Result<(), AllocError>
    ensures written { OnOk result
        (out.new.items ≡ out.old.items ++ encoding_of_definition definition.now) }
    ensures lawful { IsText definition.now }
{
    let text = definition.text();
    put_u32(out, text.len() as u32)?;
    out.extend_from_slice(text)
}
