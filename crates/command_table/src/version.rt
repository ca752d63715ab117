//! Versions of the table of commands.
ghost use Rattle.std.specs.Prelude.{◌≡◌};
ghost use Rattle.command_table.specs.Versions.{version_number, version_of};

/// A version of the table of commands. It decides which words are commands, and nothing else. What was done under one
/// version is done again under the same.
#[derive(Clone, Copy, Debug, PartialEq, Eq)]
pub enum Version {
    /// Every command but those of later versions.
    V1,
    /// With the command that gives up characters that no text has any more.
    V2,
    /// With the command that covers a track by a new one.
    V3,
}

/// The newest version.
pub const NEWEST: Version = Version::V3;

impl Version {
    /// The number of the version, from 1 on.
    pub fn number(self) -> u32
        ensures { result ≡ version_number self }
    {
        match self {
            Version::V1 => 1,
            Version::V2 => 2,
            Version::V3 => 3,
        }
    }

    /// The version of that number. None where no version has it.
    pub fn of_number(number: u32) -> Option<Version>
        ensures { result ≡ version_of number }
    {
        if number == 1 {
            return Some(Version::V1);
        }
        if number == 2 {
            return Some(Version::V2);
        }
        if number == 3 {
            return Some(Version::V3);
        }
        None
    }
}
