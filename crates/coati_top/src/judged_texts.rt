ghost use Rattle.coati_top.specs.JudgedTexts.{PrintedTextsMayBeJudged};

/// What a printed text says names parts of its program alone, so it may be judged.
pub fn printed_texts_may_be_judged()
    ensures { PrintedTextsMayBeJudged }
{}
