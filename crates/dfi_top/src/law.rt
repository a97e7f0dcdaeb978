ghost use Rattle.dfi_top.specs.Laws.{Complete, Generates, OneAnswer};

use dfi_io::{Library, Sink};

/// Words, files and a sink that are told have one answer, but for want of memory, be it over two libraries and two sinks. And words
/// of a replay over good files, where no device fails, have their run told whole, as words that ask for a program have the program.
pub fn told_calls<L: Library, K: Sink, M: Library, J: Sink>()
    ensures one { OneAnswer L.tells K.tells M.tells J.tells }
    ensures whole { Complete L.tells K.tells }
    ensures program { Generates L.tells K.tells }
{}
