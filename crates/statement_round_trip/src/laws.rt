//! The laws of what is printed and read again.
ghost use Rattle.statement_round_trip.specs.Rereading.{ColumnsNamed, ExpressionsEnd, ExpressionsReadBack, FilterReadBack, FiltersEnd, PaddedBack, SummariesTell, TypedForReader, TypedReadBack, WholesReadBack};
ghost use Rattle.statement_round_trip.specs.Respelling.{WordsReadBack};
ghost use Rattle.statement_round_trip.specs.WholeScripts.{PrintedAgain, PrintedIsSpelled, ReadMayBeRead};

/// The words of a printed expression are read as that expression.
pub fn printed_expressions_are_read()
    ensures operand { ExpressionsReadBack }
    ensures whole { WholesReadBack }
    ensures typed { TypedForReader }
    ensures of_table { TypedReadBack }
    ensures filter { FiltersEnd }
    ensures wheres { FilterReadBack }
    ensures behind { ExpressionsEnd }
    ensures named { ColumnsNamed }
    ensures tree { SummariesTell }
{}

/// The bytes of printed words have these words.
pub fn printed_words_are_read()
    ensures { WordsReadBack }
{}

/// A text of a record is printed without its last blanks, and gets them again.
pub fn printed_texts_are_padded()
    ensures { PaddedBack }
{}

/// A script that is read is read again from its printed bytes, as just that script.
pub fn printed_scripts_are_read()
    ensures may { ReadMayBeRead }
    ensures spelled { PrintedIsSpelled }
    ensures again { PrintedAgain }
{}
