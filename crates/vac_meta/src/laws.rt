//! Laws of a folder's metadata, each the contract of a function that does nothing: bytes are read in
//! one way, or refused in one.

ghost use Rattle.std.specs.Prelude.{◌≡◌, ℕ, List};
ghost use Rattle.vac_meta.specs.declared.error.MetaErr.{MetaErr};
ghost use Rattle.vac_meta.specs.declared.record.Record.{Record};
ghost use Rattle.vac_meta.specs.Flaws.{IsRefusedMetadata};
ghost use Rattle.vac_meta.specs.Records.{SpellsMetadata};

/// No bytes are the metadata of two lists of records.
pub fn one_metadata()
    ensures { (a b : List Record) (bytes : List ℕ) →
        SpellsMetadata a bytes → SpellsMetadata b bytes → a ≡ b }
{}

/// Metadata isn't refused, and what is refused is refused for one reason.
pub fn one_flaw()
    ensures none { (records : List Record) (bytes : List ℕ) (why : MetaErr) →
        SpellsMetadata records bytes → ¬ IsRefusedMetadata bytes why }
    ensures one { (bytes : List ℕ) (why other : MetaErr) →
        IsRefusedMetadata bytes why → IsRefusedMetadata bytes other → why ≡ other }
{}
