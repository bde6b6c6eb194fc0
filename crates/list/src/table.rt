// The columns of a table of rows, and the numbers that stand for counts and kinds (specs/Table).
// Kept: they are numbers, since the lists are constant tables of cells (document 01), in which every number says a count and a kind.

ghost use Rattle.std.specs.Prelude.{◌≡◌, [], ◌∷◌, ◌++◌, map};
ghost use Rattle.list.specs.Listing.{alternative};
ghost use Rattle.list.specs.tables.Table.{counts, kinds, count_of, kind_of};
ghost use Rattle.list.specs.tables.Columns.{PARENT, COUNT, KIND, MOST, NAME, NAME-END, WORDS, WORDS-END, MATE, CHILD, SIBLING, DUE-CHILD, DUE-SIBLING, PAIR, LEVEL, WORD-COUNT, SIZE, SPACE, SPACE-END};

// A row's own: its parent, its count, its kind, the k of TXTk, where its name and an ENUM's words start and end in the pool, and the
// first row of the rule whose second row it is.
pub const PARENT: usize = 0;

pub const COUNT: usize = 1;

pub const KIND: usize = 2;

pub const MOST: usize = 3;

pub const NAME: usize = 4;

pub const NAME_END: usize = 5;

pub const WORDS: usize = 6;

pub const WORDS_END: usize = 7;

pub const MATE: usize = 8;

// What follows from these: the first child, the next sibling, the first required child, the next required sibling, the second row of
// the rule whose first row it is, the level, how many words an ENUM has. 0 says that there is none.
pub const CHILD: usize = 9;

pub const SIBLING: usize = 10;

pub const DUE_CHILD: usize = 11;

pub const DUE_SIBLING: usize = 12;

pub const PAIR: usize = 13;

pub const LEVEL: usize = 14;

pub const WORD_COUNT: usize = 15;

pub const COLUMNS: usize = WORD_COUNT + 1;

// "at most 255 rows and 16 levels", "one to 255 different words"
pub const MOST_ROWS: usize = 255;

pub const MOST_LEVELS: usize = 16;

pub const MOST_WORDS: usize = 255;

// How many cells a table has that has a row for every row byte.
pub const CELLS: usize = COLUMNS * (MOST_ROWS + 1);

// Row 0's: how many rows there are, and where the namespace starts and ends in the pool.
pub const SIZE: usize = 0;

pub const SPACE: usize = 1;

pub const SPACE_END: usize = 2;

// Counts: 1..1, 0..1, 1..n, 0..n, none.
pub const ONE: usize = 0;

pub const OPTIONAL: usize = 1;

pub const SOME: usize = 2;

pub const ANY: usize = 3;

pub const ALTERNATIVE: usize = 4;

// Kinds.
pub const GROUP: usize = 0;

pub const CHOICE: usize = 1;

pub const REF: usize = 2;

pub const TXT: usize = 3;

pub const IBAN: usize = 4;

pub const CCY: usize = 5;

pub const ENUM: usize = 6;

pub const BOOL: usize = 7;

pub const NUM: usize = 8;

pub const AMT: usize = 9;

pub const DATE: usize = 10;

pub const DTM: usize = 11;

// Nobody calls these: their promises say that the numbers above are those of the definitions.
fn columns() -> [usize; COLUMNS]
    ensures { result ≡ PARENT ∷ COUNT ∷ KIND ∷ MOST ∷ NAME ∷ NAME-END ∷ WORDS ∷ WORDS-END ∷ MATE ∷ CHILD ∷ SIBLING ∷ DUE-CHILD ∷ DUE-SIBLING ∷ PAIR ∷ LEVEL ∷ WORD-COUNT ∷ [] }
{
    [
        PARENT,
        COUNT,
        KIND,
        MOST,
        NAME,
        NAME_END,
        WORDS,
        WORDS_END,
        MATE,
        CHILD,
        SIBLING,
        DUE_CHILD,
        DUE_SIBLING,
        PAIR,
        LEVEL,
        WORD_COUNT,
    ]
}

fn own() -> [usize; SPACE_END + 1]
    ensures { result ≡ SIZE ∷ SPACE ∷ SPACE-END ∷ [] }
{
    [SIZE, SPACE, SPACE_END]
}

fn counts() -> [usize; ALTERNATIVE + 1]
    ensures { map count_of result ≡ counts ++ (alternative ∷ []) }
{
    [ONE, OPTIONAL, SOME, ANY, ALTERNATIVE]
}

fn kinds() -> [usize; DTM + 1]
    ensures { map (λ c. kind_of c 1 []) result ≡ kinds 1 [] }
{
    [
        GROUP, CHOICE, REF, TXT, IBAN, CCY, ENUM, BOOL, NUM, AMT, DATE, DTM,
    ]
}
