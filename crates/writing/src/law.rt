// Laws of reading for all words, tokens and texts: each function does nothing, and its contract is the law.
ghost use Rattle.std.specs.Prelude.{◌≡◌, ℕ, List};
ghost use Rattle.text.specs.Ahead.{Ahead};
ghost use Rattle.forms.specs.declared.lists.Listing.{Listing};
ghost use Rattle.forms.specs.Heads.{Head};
ghost use Rattle.forms.specs.Things.{Spot, Thing};
ghost use Rattle.rows.specs.Rows.{Pair, Row};
ghost use Rattle.sheets.specs.Sections.{Part};
ghost use Rattle.station.specs.Station.{Station};
ghost use Rattle.writing.specs.Laws.{TokensLaw, ThingsLaw, HeadsLaw, ListsLaw, RowsLaw};
ghost use Rattle.writing.specs.Written.{ReadingLaw};

// A text has these tokens exactly when it is made of them and of blanks.
pub fn texts_of_tokens()
    ensures { (text : List ℕ) (ts : Ahead) → TokensLaw text ts }
{}

// A word names a thing exactly when it is the word that writes the thing.
pub fn words_of_things()
    ensures { (w : Spot) (th : Thing Spot) → ThingsLaw w th }
{}

// A word begins a row exactly when it is the word that writes the row's head.
pub fn words_of_heads()
    ensures { (w : Spot) (h : Head) → HeadsLaw w h }
{}

// A list of pairs is read exactly as it is written.
pub fn lists_of_pairs()
    ensures { (list : Listing) (ts : Ahead) (ps : List (Pair Spot)) (us : Ahead) → ListsLaw list ts ps us }
{}

// A row is read, after the rows before it, exactly as it is written.
pub fn rows_as_written()
    ensures { (part : Part) (rows : List (Row Spot)) (ts : Ahead) (row : Row Spot) (us : Ahead) → RowsLaw part rows ts row us }
{}

// A text is read as a station exactly when it is a writing of it.
pub fn writings_are_read()
    ensures { (text : List ℕ) (s : Station) → ReadingLaw text s }
{}
