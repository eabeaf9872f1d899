//! Addresses of bank 0 in a row.

ghost use Rattle.std.specs.Prelude.{◌≡◌, ◌<◌, if◌then◌else◌, Some, None};
ghost use Rattle.uxn_undo.specs.Spans.{address_after_span, covers, distance_to, no_span, span_in_bank, span_in_page};
ghost use Rattle.uxn_undo.specs.Changes.{span_of_range};

use system_port::BankRange;

/// So many addresses from one on. They wrap within the zero page or within the bank.
#[derive(Clone, Copy)]
pub(crate) struct Span {
    pub(crate) first: u16,
    pub(crate) count: u16,
    pub(crate) in_zero_page: bool,
}

impl Span {
    // No address.
    #[inline(always)]
    pub(crate) fn none() -> Span
        ensures { result ≡ no_span }
    {
        Span::in_bank(0, 0)
    }

    // Addresses of the zero page.
    #[inline(always)]
    pub(crate) fn in_page(first: u8, count: u16) -> Span
        ensures { result ≡ span_in_page first count }
    {
        Span {
            first: u16::from(first),
            count,
            in_zero_page: true,
        }
    }

    // Addresses anywhere in the bank.
    #[inline(always)]
    pub(crate) fn in_bank(first: u16, count: u16) -> Span
        ensures { result ≡ span_in_bank first count }
    {
        Span {
            first,
            count,
            in_zero_page: false,
        }
    }

    // The part of a range of memory that lies in bank 0.
    pub(crate) fn of_range(range: BankRange) -> Span
        ensures { result ≡ span_of_range range }
    {
        if range.bank == 0 {
            Span::in_bank(range.first, range.count)
        } else {
            Span::none()
        }
    }

    // The address so many after the first.
    pub(crate) fn address_after_span(&self, count: u16) -> u16
        ensures { result ≡ address_after_span self.now count }
    {
        let at = self.first.wrapping_add(count);
        if self.in_zero_page { at % 256 } else { at }
    }

    // How far behind the first an address is, if it is one of them.
    pub(crate) fn distance_to(&self, at: u16) -> Option<u16>
        ensures { result ≡ (if covers self.now at then Some (distance_to self.now at) else None) }
    {
        let distance = at.wrapping_sub(self.first);
        let (within, distance) = if self.in_zero_page {
            (at < 256, distance % 256)
        } else {
            (true, distance)
        };
        if within && distance < self.count {
            Some(distance)
        } else {
            None
        }
    }
}
