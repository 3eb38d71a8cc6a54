//! What holds of each list of calls.
ghost use Rattle.std.specs.Prelude.{◌≡◌, ◌++◌, List};
ghost use Rattle.std.specs.List.Sorted.{IsPermutation};
ghost use Rattle.js_desk.specs.Endings.{waiting};
ghost use Rattle.js_desk.specs.Acts.{Act, Run, joined, given_back};
ghost use Rattle.js_desk.specs.Rows.{Row};

/// Whatever is done with those who wait for ends: each who waited before or began to wait was given back once or waits still, and
/// nobody else is given back.
pub fn once_law<W: Drop>()
    ensures { (old : List (Row W)) (acts : List (Act W)) (new : List (Row W))
        → Run old acts new → IsPermutation (given_back acts ++ waiting new) (waiting old ++ joined acts) }
{}
