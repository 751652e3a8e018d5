//! What is proved of a table's life, for every list of turns. The call that works a list of calls promises it of the life that it made.
ghost use Rattle.rules.specs.Rules.{RulesStand, BooksStand};
ghost use Rattle.rules.specs.Key.{KeyStands};

/// After every list of calls the rules stand and the books are honest.
// Private here and below: a user meets it in the promise of the call that works a list of calls.
fn rules_stand()
    ensures rules { RulesStand }
    ensures books { BooksStand }
{}

/// After every list of calls the key tells which processes run.
fn key_stands()
    ensures { KeyStands }
{}
