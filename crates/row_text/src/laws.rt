//! Reading and writing undo each other: each row, key, lot and number has one spelling, which is read as it, and no other
//! text is.
ghost use Rattle.row_text.specs.Laws.{RowIsReadAgain, RowIsReadAlone, KeyIsReadAgain, KeyIsReadAlone};
ghost use Rattle.row_text.specs.Laws.{LotIsReadAgain, LotIsReadAlone, NumberIsReadAgain, NumberIsReadAlone};
ghost use Rattle.row_text.specs.Laws.{FewFieldsTell};

/// The fields of a sound row are read as that row, and no other fields are.
pub fn rows_have_one_spelling()
    ensures again { RowIsReadAgain }
    ensures alone { RowIsReadAlone }
{}

/// The key form of a sound key is read as that key, and no other fields are.
pub fn keys_have_one_spelling()
    ensures again { KeyIsReadAgain }
    ensures alone { KeyIsReadAlone }
{}

/// The text of a sound lot is read as that lot, and no other text is.
pub fn lots_have_one_spelling()
    ensures again { LotIsReadAgain }
    ensures alone { LotIsReadAlone }
{}

/// The digits of a number are read as that number, and no other text is.
pub fn numbers_have_one_spelling()
    ensures again { NumberIsReadAgain }
    ensures alone { NumberIsReadAlone }
{}

/// What stands behind the first eight fields of a row or of a key form is not looked at.
pub fn few_fields_tell()
    ensures { FewFieldsTell }
{}
