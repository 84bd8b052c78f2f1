//! Laws of rule lines and of operands, which speak only of the definitions.

ghost use Rattle.mk_read.specs.BlockLaws.{BlocksGiveTheirRules};
ghost use Rattle.mk_read.specs.RuleLaws.{OneLineHasTheCommands, CommandsAreOfTheOneLine, ElseCommandsAreOfTheDefaultText, WordsComeFromAllLines, OtherLinesGiveNoWords, NamingLinesGiveTheirWords, OperandsWinOverMakefiles, LastOperandWins, RuleLinesAreWellNamed, SuffixesAreSuffixes, TextsArePlain};

use mk_macros::definition_laws::{operands_fix, operands_leave_others, operands_win};

/// In a text of the makefile the commands of a rule line are the one after its `;`, and then those
/// of the command lines that follow it with only comment lines between. Blank lines have been
/// dropped already.
pub fn blocks_give_their_rules()
    ensures { BlocksGiveTheirRules }
{}

/// In a makefile at most one of its own rule lines gives commands to a name.
pub fn one_line_has_the_commands()
    ensures { OneLineHasTheCommands }
{}

/// The commands of a name are those of the makefile's own rule line that gives it commands.
pub fn commands_are_of_the_one_line()
    ensures { CommandsAreOfTheOneLine }
{}

/// A name to which none of the makefile's own rule lines gives commands has those that the default
/// text gives it.
pub fn else_commands_are_of_the_default_text()
    ensures { ElseCommandsAreOfTheDefaultText }
{}

/// The prerequisites of a name are those of all rule lines that have it as a target, in order.
pub fn words_come_from_all_lines()
    ensures { WordsComeFromAllLines }
{}

/// A rule line that doesn't have a name as a target gives it no prerequisites.
pub fn other_lines_give_no_words()
    ensures { OtherLinesGiveNoWords }
{}

/// A rule line that has a name as a target gives it its prerequisites, in the line's place in the
/// order.
pub fn naming_lines_give_their_words()
    ensures { NamingLinesGiveTheirWords }
{}

/// A macro that an operand has fixed is in the makefile as the operand set it.
pub fn operands_win_over_makefiles()
    ensures { OperandsWinOverMakefiles }
{
    operands_win();
}

/// Of several operands that set a macro the last one wins, also over what the makefile assigns.
pub fn last_operand_wins()
    ensures { LastOperandWins }
{
    operands_fix();
    operands_win();
    operands_leave_others();
}

/// Each rule line of a makefile has a target, its targets and prerequisites are names, and none of
/// its targets is special.
pub fn rule_lines_are_well_named()
    ensures { RuleLinesAreWellNamed }
{}

/// Each word that a makefile lists as a suffix is one.
pub fn suffixes_are_suffixes()
    ensures { SuffixesAreSuffixes }
{}

/// The names of a makefile's texts are plain paths: its own name, and those in include lines.
pub fn texts_are_plain()
    ensures { TextsArePlain }
{}
