//! The labels of a source.

ghost use Rattle.std.specs.Prelude.{◌≡◌, ◌≤◌, ℕ, List, length, true, Ok};
ghost use Rattle.tal_rom.specs.Assembly.{layout};
ghost use Rattle.uxn_limits.specs.declared.limits.TheConstants.{SYMBOLS_LIMIT};
ghost use Rattle.tal_symbols.specs.SymbolFile.{symbol_file, are_readable};
ghost use Rattle.tal_symbols.specs.Reading.{symbols_in};

/// The labels of a source have names that can be read back, and so its symbol file is read as its
/// labels, where it is not too long.
pub fn source_labels_are_read()
    ensures readable { (source : List ℕ) → are_readable (layout source).labels ≡ true }
    ensures read_back { (source : List ℕ) → length (symbol_file (layout source).labels) ≤ SYMBOLS_LIMIT
        → symbols_in (symbol_file (layout source).labels) ≡ Ok (layout source).labels }
{}
