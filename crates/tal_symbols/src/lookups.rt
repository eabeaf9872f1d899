//! Labels by their addresses and by their names.

ghost use Rattle.std.specs.Prelude.{◌≡◌};
ghost use Rattle.std.specs.Option.{option_copied};
ghost use Rattle.tal_symbols.specs.Lookups.{nearest_label, lies_below};
ghost use Rattle.tal_words.specs.Labels.{address_named};

use tal_words::Label;

/// The label of the greatest address that is not above an address, and of several such labels the
/// first. `None` exactly where each label lies above.
pub fn nearest(labels: &[Label], address: u16) -> Option<&Label>
    ensures { option_copied result ≡ nearest_label labels.now address }
{
    let mut nearest: Option<&Label> = None;
    for label in labels {
        if label.address <= address && lies_below(nearest, label.address) {
            nearest = Some(label);
        }
    }
    nearest
}

/// Whether the label found so far, if one was found, lies below an address.
fn lies_below(found: Option<&Label>, address: u16) -> bool
    ensures { result ≡ lies_below (option_copied found.entry) address }
{
    match found {
        Some(label) => label.address < address,
        None => true,
    }
}

/// The address of the first label of a name. `None` exactly where no label has it.
pub fn address_of(labels: &[Label], name: &[u8]) -> Option<u16>
    ensures { result ≡ address_named labels.now name.now }
{
    for label in labels {
        if name == label.name.bytes() {
            return Some(label.address);
        }
    }
    None
}
