// The laws of lines and templates, over their definitions.
ghost use Rattle.ados_readargs.specs.FirstFault.{LinesHaveTheirFirstFault};

/// A line that does not fill options has its first fault, by what is in it: that of the first word after phrases that
/// have none, except that a quote that is not closed comes before a word too many; and if all words are phrases, a plain word
/// that is left over, then an option with /A that was given nothing, then a value that is not a number.
pub fn first_fault_of_a_line()
    ensures { LinesHaveTheirFirstFault }
{}
