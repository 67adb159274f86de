//! The profiles of chains, by word and byte.

ghost use Rattle.std.specs.Prelude.{◌≡◌, Some, IfSome};
ghost use Rattle.ox_sat.specs.declared.profiles.ProfileName.{ProfileName};
ghost use Rattle.ox_sat.specs.Profiles.{profile_named, profile_word, profile_byte, name_at};
ghost use Rattle.ox_sat.specs.Profiles.{IsProfile};
ghost use Rattle.ox_sat.specs.Profiles.{AreTold};

/// The chains that an index can follow.
#[derive(Clone, Copy, Debug, PartialEq, Eq)]
pub enum ProfileName {
    /// Bitcoin's main chain.
    Mainnet,
    /// A regression-test chain. It halves as the main chain does, and not every 150 blocks.
    Regtest,
    /// A chain of 41 blocks in which every rule comes into play soon.
    Lab,
}

impl ProfileName {
    /// The word that names the profile: `mainnet`, `regtest` or `lab`.
    pub fn word(self) -> &'static str
        ensures { result.now ≡ profile_word self }
    {
        match self {
            ProfileName::Mainnet => "mainnet",
            ProfileName::Regtest => "regtest",
            ProfileName::Lab => "lab",
        }
    }

    /// The profile that this word names. `None` exactly where it names none.
    pub fn of_word(word: &[u8]) -> Option<ProfileName>
        ensures found { IfSome result (λ name. word.now ≡ profile_word name) }
        ensures only { (name : ProfileName) → word.now ≡ profile_word name → result ≡ Some name }
    {
        match word {
            b"mainnet" => Some(ProfileName::Mainnet),
            b"regtest" => Some(ProfileName::Regtest),
            b"lab" => Some(ProfileName::Lab),
            _ => None,
        }
    }

    /// The byte that stands for the profile in a file's head: 0, 1 or 2.
    pub fn byte(self) -> u8
        ensures { result ≡ profile_byte self }
    {
        match self {
            ProfileName::Mainnet => 0,
            ProfileName::Regtest => 1,
            ProfileName::Lab => 2,
        }
    }

    /// The profile for which this byte of a file's head stands. A head's byte is at most 2.
    pub fn of_byte(byte: u8) -> ProfileName
        ensures { result ≡ name_at byte }
    {
        match byte {
            0 => ProfileName::Mainnet,
            1 => ProfileName::Regtest,
            _ => ProfileName::Lab,
        }
    }
}

/// Each profile has a byte and a word of its own, and its table has its byte.
pub fn profiles_are_told()
    ensures { AreTold }
{}

/// The numbers by which a chain counts, as `profile_of` gives them.
#[derive(Clone, Copy, Debug, PartialEq, Eq)]
pub struct Profile {
    /// The byte that stands for the profile in a file's head.
    pub byte: u8,
    /// The number of blocks between two halvings of the subsidy.
    pub halving: u64,
    /// The number of blocks between two adjustments of the difficulty.
    pub period: u64,
    /// The number of blocks after which a halving and an adjustment coincide again.
    pub cycle: u64,
    /// The number of satoshis that all subsidies mint.
    pub supply: u64,
    /// The height from which runes are read.
    pub rune_start: u64,
    /// The number of blocks after which the shortest name that a rune may take gets one letter
    /// shorter.
    pub interval: u64,
    /// Whether the rune of id 1:0 is there from the start.
    pub first_rune: bool,
    /// The height from which no inscription is cursed.
    pub jubilee: u64,
    /// The height from which a block with a witness has to commit to it.
    pub commitment: u64,
    /// The greatest height that is accepted.
    pub last: u64,
}

/// The profile of this name.
pub fn profile_of(name: ProfileName) -> Profile
    ensures value { result ≡ profile_named name }
    ensures known { IsProfile result }
{
    match name {
        ProfileName::Mainnet => Profile {
            byte: 0,
            halving: 210_000,
            period: 2_016,
            cycle: 1_260_000,
            supply: 2_099_999_997_690_000,
            rune_start: 840_000,
            interval: 17_500,
            first_rune: true,
            jubilee: 824_544,
            commitment: 481_824,
            last: 4_000_000_000,
        },
        ProfileName::Regtest => Profile {
            byte: 1,
            halving: 210_000,
            period: 2_016,
            cycle: 1_260_000,
            supply: 2_099_999_997_690_000,
            rune_start: 0,
            interval: 17_500,
            first_rune: false,
            jubilee: 110,
            commitment: 0,
            last: 4_000_000_000,
        },
        ProfileName::Lab => Profile {
            byte: 2,
            halving: 10,
            period: 12,
            cycle: 60,
            supply: 99_999_999_890,
            rune_start: 2,
            interval: 1,
            first_rune: false,
            jubilee: 6,
            commitment: 30,
            last: 40,
        },
    }
}
