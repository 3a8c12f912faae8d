// Laws of escaping and cooking: each function does nothing, and its contract states the law.
ghost use Rattle.template.specs.Laws.{EscapedTextCooksBack, EscapeExamples, CookingIsOne, WholeCooksAsItsParts, CookedAtMostTwice};

// Escaped text cooks back to the text.
pub fn escaped_text_cooks_back()
    ensures { EscapedTextCooksBack }
{}

// What the raw text of `a$` and of CR is.
pub fn escape_examples()
    ensures { EscapeExamples }
{}

// A raw text cooks to at most one text.
pub fn cooking_is_one()
    ensures { CookingIsOne }
{}

// What the front and the rest cook to is, one behind the other, what the whole cooks to.
pub fn whole_cooks_as_its_parts()
    ensures { WholeCooksAsItsParts }
{}

// No raw text cooks to more than twice as many bytes.
pub fn cooked_text_is_at_most_twice_as_long()
    ensures { CookedAtMostTwice }
{}
