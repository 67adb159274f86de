//! Laws of addresses and of their checksums.

ghost use Rattle.ox_address.specs.Checksum.{IsTheChecksum};
ghost use Rattle.ox_address.specs.Address.{HasOneScript, HasOneCase, IsShort};
ghost use Rattle.ox_address.specs.Spelled.{IsFound};

/// The law of the checksum: with it the polynomial of an address is what BIP 173 and BIP 350 want
/// of its version, and with no six other symbols.
pub fn checksum_is_the_only_one()
    ensures { IsTheChecksum }
{}

/// No text is an address of two scripts. So what `write` writes `read` reads back, also in
/// capitals.
pub fn address_has_one_script()
    ensures { HasOneScript }
{}

/// The script whose address a text is, if any, is a function of the text: the one that its symbols
/// spell, where the text is an address of that.
pub fn spelled_script_has_the_address()
    ensures { IsFound }
{}

/// A text with a lower-case letter and a capital is no address.
pub fn address_has_one_case()
    ensures { HasOneCase }
{}

/// An address has at least 13 bytes and at most 76: the bound of 90 is met by itself.
pub fn address_is_short()
    ensures { IsShort }
{}
