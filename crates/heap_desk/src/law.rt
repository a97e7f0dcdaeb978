ghost use Rattle.heap_desk.specs.SameBlocks.{SameFirstFit, OneFirstFit, SameBegins, SameWith, SameWithout};
ghost use Rattle.heap_desk.specs.Laws.{
  HistoryIsServed,
  BlocksStayApart,
  GivenBackIsFree,
  GivenBackIsTaken,
  StartsRun,
  TakeAnswersNew,
  NoRoomStopsNew,
  GiveAnswersFree,
  NextAnswersIn,
  LeftAnswersLeft,
  OthersLeaveDesk,
};

/// In every run the live blocks lie in the heap and do not overlap, and where a block was given back, one that is no larger
/// can be taken at the same place.
pub fn blocks_of_a_run()
    ensures served { HistoryIsServed }
    ensures apart { BlocksStayApart }
    ensures free_again { GivenBackIsFree }
    ensures taken_again { GivenBackIsTaken }
{}

/// A desk that serves a run from its start gives the answers that the run allows.
pub fn desk_follows_run()
    ensures start { StartsRun }
    ensures take { TakeAnswersNew }
    ensures no_room { NoRoomStopsNew }
    ensures give { GiveAnswersFree }
    ensures next { NextAnswersIn }
    ensures left { LeftAnswersLeft }
    ensures others { OthersLeaveDesk }
{}

/// Two lists of the same blocks serve alike, however each keeps them.
pub fn same_blocks_serve_alike()
    ensures first_fit { SameFirstFit }
    ensures one_fit { OneFirstFit }
    ensures begins { SameBegins }
    ensures with { SameWith }
    ensures without { SameWithout }
{}
