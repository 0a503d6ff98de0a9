//! The limits of the files, by their size class.
ghost use Rattle.std.specs.Prelude.{◌≡◌, ◌≤◌};
ghost use Rattle.ados_ram.specs.Limits.{file_limit, bytes_limit, objects_limit};

/// How large files may become: those of a first Amiga's RAM disk, or as large as the work needs.
#[derive(Clone, Copy, PartialEq, Eq)]
pub enum Limits {
    Small,
    Large,
}

impl Limits {
    /// The most bytes of a file.
    pub fn file(self) -> usize
        ensures { result ≡ file_limit self }
    {
        match self {
            Limits::Small => 65_536,
            Limits::Large => 67_108_864,
        }
    }

    /// The most bytes of all files together.
    pub fn bytes(self) -> usize
        ensures { result ≡ bytes_limit self }
    {
        match self {
            Limits::Small => 1_048_576,
            Limits::Large => 1_073_741_824,
        }
    }

    /// The most objects, beside the root.
    pub fn objects(self) -> usize
        ensures limit { result ≡ objects_limit self }
        ensures few { result ≤ 65536 }
    {
        match self {
            Limits::Small => 1_024,
            Limits::Large => 65_536,
        }
    }
}
