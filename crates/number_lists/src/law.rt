ghost use Rattle.number_lists.specs.Laws.{HasOneAnswer};
ghost use Rattle.number_lists.specs.Lists.{int_of, name_of};

/// Bytes are a list of numbers, or are refused at one place.
pub fn one_answer()
    ensures input { HasOneAnswer int_of }
    ensures names { HasOneAnswer name_of }
{}
