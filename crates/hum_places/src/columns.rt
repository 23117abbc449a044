//! Columns that are chosen or cleaved, place by place.
ghost use Rattle.std.specs.Prelude.{ℕ, List, Bool};
ghost use Rattle.hum_places.specs.Columns.{CutsByPlace};
ghost use Rattle.hum_places.specs.Cleaved.{MergesByPlace, TogetherByPlace, TokensByPlace, TakenByPlace};

/// Of an interpretation extract keeps the tokens of the chosen columns, each at its place among them. A
/// join is torn where a `*v` in a chosen column stands beside one in another: X1. An exchange crosses
/// where a chosen column changes places with another and a chosen one stands strictly between: X3. Else
/// the `*x` of such an exchange becomes `*`.
pub fn cuts_by_place()
    ensures { (names : List (List ℕ)) (flags : List Bool) (tokens : List (List ℕ))
        → CutsByPlace names flags tokens }
{}

/// Of an interpretation cleave makes one token at the place of the leftmost cleaved column, and all
/// others stay; C2 where a cleaved column has an exclusive interpretation, else C1 where one has `*x` or
/// `*+`, one of them ends and another doesn't, or a join is torn. So it is with the tokens of all records.
pub fn merges_by_place()
    ensures merged { (flags : List Bool) (tokens : List (List ℕ)) → MergesByPlace flags tokens }
    ensures together { (one : List ℕ) (flags : List Bool) (tokens : List (List ℕ))
        → TogetherByPlace one flags tokens }
{}

/// The one token of a comment is the leftmost that isn't `!`, and of an interpretation the leftmost that
/// isn't `*`, `*^` or `*v`. Data tokens are taken that aren't null, a barline only if none to its left is
/// the same; in their order.
pub fn tokens_by_place()
    ensures one { (tokens : List (List ℕ)) → TokensByPlace tokens }
    ensures taken { (tokens : List (List ℕ)) → TakenByPlace tokens }
{}
