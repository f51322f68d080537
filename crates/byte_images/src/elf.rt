//! The class of an ELF file.

ghost use Rattle.std.specs.Prelude.{◌≡◌, ◌<◌, length};
ghost use Rattle.byte_images.specs.Elf.{class_of, header_len};

/// The width of an ELF file's fields.
#[derive(Clone, Copy)]
pub enum Class {
    Elf32,
    Elf64,
}

/// The class that an ELF file names in its fifth byte.
#[tactic(auto, unfolding(crate::specs::Elf::class_of))]
pub fn class_of(file: &[u8]) -> Class
    requires { 4 < length file.now }
    ensures { result ≡ class_of file.now }
{
    if file[4] == 1 {
        Class::Elf32
    } else {
        Class::Elf64
    }
}

impl Class {
    /// The size of the ELF header.
    pub fn header_len(self) -> u64
        ensures { result ≡ header_len self }
    {
        match self {
            Class::Elf32 => 52,
            Class::Elf64 => 64,
        }
    }
}
