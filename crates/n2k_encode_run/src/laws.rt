//! Theorems about the definitions: each is the contract of a function that does nothing.
ghost use Rattle.std.specs.Prelude.{◌≡◌, ◌+◌, ◌++◌, ℕ, Bool, List};
ghost use Rattle.std.specs.Io.{IsEmptyOrEndsWith};
ghost use Rattle.n2k_table.specs.Table.{TableParts};
ghost use Rattle.n2k_run.specs.Lines.{line_feed, lines};
ghost use Rattle.n2k_encode_run.specs.Outcomes.{GiveAll, Outcome, counts_after, counts_of, reports_from, texts};

/// Each line has one outcome, so `run_encode` and `Encoding` print and report the same.
pub fn outcomes_agree()
    ensures { (t : TableParts) (nearest : Bool) (ls : List (List ℕ)) (os ps : List Outcome)
        → GiveAll t nearest ls os → GiveAll t nearest ls ps → os ≡ ps }
{}

/// The texts, reports and counts of a log are those of its first lines and then, with the numbers after these, those of
/// its other lines.
pub fn outcomes_join()
    ensures outcomes { (t : TableParts) (nearest : Bool) (prefix more : List ℕ) (os ps : List Outcome)
        → IsEmptyOrEndsWith prefix line_feed → GiveAll t nearest (lines prefix) os → GiveAll t nearest (lines more) ps
        → GiveAll t nearest (lines (prefix ++ more)) (os ++ ps) }
    ensures texts { (os ps : List Outcome) → texts (os ++ ps) ≡ texts os ++ texts ps }
    ensures reports { (os ps : List Outcome)
        → reports_from 1 (os ++ ps) ≡ reports_from 1 os ++ reports_from ((counts_of os).lines + 1) ps }
    ensures counts { (os ps : List Outcome) → counts_of (os ++ ps) ≡ counts_after (counts_of os) ps }
{}
