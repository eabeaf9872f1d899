//! The law of the first faulty line.

ghost use Rattle.std.specs.Prelude.{◌≡◌, ℕ, List, [], Option, Err};
ghost use Rattle.text_lines.specs.Reading.{Line, given, IsFirstLineFault};

/// A text of lines is refused exactly at the first of its lines that is faulty, with the fault of that line.
pub fn first_faulty_line<A, K>()
    ensures first { (fault : List A → A → Option K) (lines : List (Line A K)) (number : ℕ) (kind : K)
        → given fault 1 [] lines ≡ Err (number, kind) → IsFirstLineFault fault 1 [] lines number kind }
    ensures refused { (fault : List A → A → Option K) (lines : List (Line A K)) (number : ℕ) (kind : K)
        → IsFirstLineFault fault 1 [] lines number kind → given fault 1 [] lines ≡ Err (number, kind) }
{}
