// The register map: which register lies at an offset.
ghost use Rattle.plic.specs.Registers.{Locates};

use controller::Refusal;

// A register of a PLIC, by the source or by the word of 32 sources that it is of.
#[derive(Clone, Copy)]
pub(crate) enum Register {
    SourcePriority(usize),
    PendingWord(usize),
    EnableWord(usize),
    Threshold,
    ClaimComplete,
}

// The register at an offset of a PLIC with the sources below N.
pub(crate) fn locate<const N: usize>(offset: u32) -> Result<Register, Refusal>
    ensures { Locates N offset result }
{
    if offset % 4 != 0 {
        return Err(Refusal::NoSuchAddress);
    }
    let index = (offset % 0x1000 / 4) as usize;
    match offset / 0x1000 {
        0x000 if index < N => Ok(Register::SourcePriority(index)),
        0x001 if 32 * index < N && index < 32 => Ok(Register::PendingWord(index)),
        0x002 if 32 * index < N && index < 32 => Ok(Register::EnableWord(index)),
        0x200 if index == 0 => Ok(Register::Threshold),
        0x200 if index == 1 => Ok(Register::ClaimComplete),
        _ => Err(Refusal::NoSuchAddress),
    }
}
