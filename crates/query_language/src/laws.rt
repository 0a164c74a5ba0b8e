//! What the reading of queries has to do with their grammar.
ghost use Rattle.query_language.specs.Laws.{QueryIsChecked, QueryIsDerived, QueryIsRead, QueryHasOneTree, FaultIsFirst};

/// A text is read as a tree exactly where the grammar derives it with this tree, and it has no other.
pub fn queries_have_one_reading()
    ensures checked { QueryIsChecked }
    ensures derived { QueryIsDerived }
    ensures read { QueryIsRead }
    ensures alone { QueryHasOneTree }
{}

/// The fault of a text is its first token that no query continues, or its end.
pub fn faults_are_first()
    ensures { FaultIsFirst }
{}
