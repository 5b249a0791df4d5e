//! Laws of the definitions, each the contract of a function that does nothing.

ghost use Rattle.fbl_scripts.specs.Scripts.{FirstVersionLaw, OtherVersionsLaw};

/// An input reads as it did when version 1 was the only one, as the same script or with the same fault: `first` where its
/// version is 1, and `other` wherever its version isn't 2.
pub fn first_version_law()
    ensures first { FirstVersionLaw }
    ensures other { OtherVersionsLaw }
{}
