// Which entry of the list can be equal to a word: a perfect hash over the list. scripts/keyword_tables.py writes the two arrays.
ghost use Rattle.std.specs.Prelude.{◌≡◌, ◌%◌, ◌≤◌, length};
ghost use Rattle.keywords.specs.Index as spec;
ghost use Rattle.keywords.specs.Index.{key};

use crate::LONGEST;

// An entry of the list: its place, where its length stands in the table, and the number of its first letter. That it stands in the table is no ghost
// field (tried: "a static that holds a struct with a ghost field .. is not supported yet"), so what takes an entry asks for `Stands`.
#[derive(Clone, Copy)]
pub(crate) struct Entry {
    pub(crate) place: u8,
    pub(crate) at: u16,
    pub(crate) first: u8,
}

macro_rules! entry {
    ($place:literal, $at:literal, $first:literal) => {
        Some(Entry {
            place: $place,
            at: $at,
            first: $first % 32,
        })
    };
}

// Hash and displace: each bucket of entries, the largest first, has the least shift that leads to keys which are still free.
static SHIFTS: [u8; 64] = [
    1, 0, 0, 0, 0, 45, 0, 0, 0, 22, 16, 0, 0, 59, 0, 0, 124, 82, 105, 170, 109, 39, 121, 14, 57,
    138, 3, 8, 0, 69, 93, 0, 4, 91, 78, 15, 7, 1, 127, 132, 2, 135, 59, 90, 125, 144, 162, 49, 143,
    7, 6, 3, 200, 37, 0, 0, 3, 31, 0, 0, 98, 0, 0, 0,
];

// The entries by their keys.
static ENTRIES: [Option<Entry>; 256] = [
    entry!(68, 384, b'T'), // TRUNCATE
    None,
    entry!(9, 53, b'W'), // WITH
    entry!(8, 46, b'O'), // OFFSET
    None,
    entry!(102, 631, b'P'), // PARTITION
    None,
    None,
    entry!(201, 1365, b'S'), // SYNTAX
    entry!(100, 615, b'I'), // INTERVAL
    None,
    entry!(80, 474, b'M'), // MATERIALIZED
    entry!(196, 1329, b'P'), // PRECEDING
    entry!(106, 661, b'E'), // EMPTY
    None,
    None,
    entry!(19, 99, b'C'), // CASE
    None,
    None,
    entry!(75, 434, b'T'), // TABLE
    None,
    entry!(174, 1166, b'R'), // RESTORE
    entry!(74, 427, b'U'), // UNDROP
    entry!(65, 363, b'D'), // DETACH
    entry!(77, 445, b'D'), // DATABASE
    entry!(57, 315, b'I'), // INTO
    entry!(55, 298, b'I'), // INTERSECT
    entry!(79, 465, b'F'), // FUNCTION
    None,
    None,
    None,
    entry!(24, 123, b'C'), // CAST
    entry!(58, 320, b'V'), // VALUES
    entry!(127, 822, b'D'), // DATABASES
    None,
    None,
    entry!(146, 980, b'C'), // CACHE
    None,
    None,
    entry!(85, 513, b'D'), // DEFAULT
    entry!(59, 327, b'D'), // DELETE
    None,
    None,
    entry!(180, 1208, b'D'), // DELETED
    entry!(164, 1094, b'M'), // MUTATION
    None,
    entry!(37, 194, b'G'), // GLOBAL
    entry!(123, 792, b'P'), // PLAN
    entry!(190, 1282, b'H'), // HIERARCHICAL
    None,
    entry!(185, 1245, b'H'), // HASHED
    entry!(129, 840, b'D'), // DICTIONARIES
    None,
    None,
    entry!(62, 345, b'C'), // CREATE
    entry!(61, 341, b'S'), // SET
    entry!(172, 1147, b'T'), // TRANSACTION
    entry!(171, 1138, b'R'), // ROLLBACK
    entry!(6, 33, b'H'), // HAVING
    entry!(73, 418, b'E'), // EXCHANGE
    entry!(32, 166, b'L'), // LEFT
    entry!(175, 1174, b'L'), // LOCAL
    entry!(21, 109, b'T'), // THEN
    entry!(188, 1265, b'D'), // DIRECT
    entry!(214, 1458, b'I'), // IDENTIFIED
    entry!(138, 917, b'M'), // MERGES
    entry!(168, 1119, b'C'), // CHECK
    entry!(86, 521, b'C'), // CODEC
    entry!(111, 698, b'P'), // PROJECTION
    entry!(153, 1030, b'G'), // GRANT
    entry!(99, 609, b'F'), // FALSE
    None,
    None,
    entry!(202, 1372, b'T'), // TREE
    entry!(90, 547, b'K'), // KEY
    entry!(151, 1017, b'M'), // MODELS
    entry!(173, 1159, b'B'), // BACKUP
    entry!(94, 576, b'S'), // SETTINGS
    entry!(15, 81, b'L'), // LIKE
    entry!(67, 377, b'R'), // RENAME
    entry!(140, 932, b'R'), // REPLICAS
    entry!(115, 731, b'C'), // CLEAR
    entry!(155, 1043, b'U'), // USER
    entry!(207, 1403, b'M'), // MATERIALIZE
    entry!(145, 975, b'L'), // LOGS
    None,
    entry!(142, 953, b'S'), // SENDING
    entry!(192, 1302, b'O'), // OVER
    None,
    entry!(3, 18, b'O'), // ORDER
    entry!(25, 128, b'D'), // DISTINCT
    entry!(113, 720, b'A'), // ADD
    entry!(30, 155, b'J'), // JOIN
    entry!(163, 1088, b'Q'), // QUERY
    entry!(150, 1008, b'C'), // COMPILED
    entry!(177, 1187, b'U'), // UNFREEZE
    entry!(211, 1434, b'S'), // STEP
    None,
    entry!(162, 1083, b'K'), // KILL
    entry!(39, 205, b'S'), // SEMI
    None,
    entry!(114, 724, b'M'), // MODIFY
    entry!(158, 1059, b'P'), // POLICY
    entry!(44, 234, b'F'), // FINAL
    entry!(182, 1223, b'L'), // LAYOUT
    None,
    None,
    entry!(7, 40, b'L'), // LIMIT
    None,
    entry!(125, 806, b'E'), // ESTIMATE
    entry!(191, 1295, b'W'), // WINDOW
    None,
    entry!(121, 779, b'D'), // DESCRIBE
    entry!(81, 487, b'T'), // TEMPORARY
    None,
    entry!(88, 531, b'C'), // COMMENT
    entry!(206, 1398, b'P'), // PART
    entry!(49, 261, b'L'), // LAST
    entry!(132, 875, b'P'), // PRIVILEGES
    entry!(157, 1053, b'Q'), // QUOTA
    entry!(104, 649, b'T'), // TO
    entry!(178, 1196, b'F'), // FETCH
    entry!(143, 961, b'F'), // FETCHES
    entry!(170, 1131, b'C'), // COMMIT
    entry!(117, 742, b'G'), // GRANULARITY
    entry!(133, 886, b'G'), // GRANTS
    entry!(11, 61, b'O'), // ON
    entry!(91, 551, b'A'), // ALIAS
    entry!(18, 95, b'N'), // NOT
    entry!(69, 393, b'S'), // SHOW
    entry!(82, 497, b'I'), // IF
    entry!(48, 255, b'F'), // FIRST
    entry!(167, 1114, b'T'), // TEST
    entry!(84, 508, b'L'), // LIVE
    entry!(187, 1257, b'C'), // COMPLEX
    entry!(5, 27, b'G'), // GROUP
    entry!(2, 12, b'W'), // WHERE
    entry!(103, 641, b'C'), // CLUSTER
    entry!(165, 1103, b'S'), // SYNC
    entry!(216, 1474, b'K'), // KEYED
    entry!(135, 900, b'F'), // FLUSH
    entry!(110, 692, b'I'), // INDEX
    entry!(118, 754, b'T'), // TYPE
    entry!(16, 86, b'I'), // ILIKE
    entry!(36, 188, b'C'), // CROSS
    entry!(0, 0, b'S'), // SELECT
    entry!(136, 906, b'S'), // STOP
    entry!(101, 624, b'E'), // ENGINE
    entry!(134, 893, b'R'), // RELOAD
    entry!(154, 1036, b'R'), // REVOKE
    entry!(212, 1439, b'I'), // INTERPOLATE
    entry!(71, 402, b'O'), // OPTIMIZE
    entry!(198, 1349, b'C'), // CURRENT
    entry!(98, 604, b'T'), // TRUE
    entry!(128, 832, b'C'), // COLUMNS
    entry!(26, 137, b'A'), // ALL
    entry!(87, 527, b'T'), // TTL
    entry!(109, 685, b'C'), // COLUMN
    entry!(29, 152, b'O'), // OR
    entry!(176, 1180, b'F'), // FREEZE
    entry!(194, 1312, b'G'), // GROUPS
    entry!(28, 148, b'A'), // AND
    entry!(54, 291, b'E'), // EXCEPT
    entry!(22, 114, b'E'), // ELSE
    entry!(56, 308, b'I'), // INSERT
    entry!(51, 273, b'R'), // ROLLUP
    entry!(208, 1415, b'S'), // SETTING
    entry!(149, 995, b'U'), // UNCOMPRESSED
    entry!(195, 1319, b'U'), // UNBOUNDED
    entry!(108, 679, b'A'), // AFTER
    entry!(186, 1252, b'F'), // FLAT
    entry!(197, 1339, b'F'), // FOLLOWING
    entry!(148, 990, b'M'), // MARK
    entry!(156, 1048, b'R'), // ROLE
    entry!(10, 58, b'A'), // AS
    entry!(35, 182, b'O'), // OUTER
    entry!(179, 1202, b'A'), // APPLY
    entry!(96, 592, b'S'), // SAMPLE
    entry!(42, 220, b'N'), // NATURAL
    entry!(50, 266, b'T'), // TOTALS
    entry!(169, 1125, b'B'), // BEGIN
    entry!(63, 352, b'A'), // ALTER
    entry!(38, 201, b'A'), // ANY
    entry!(204, 1386, b'E'), // ENGINES
    entry!(23, 119, b'E'), // END
    entry!(31, 160, b'I'), // INNER
    entry!(60, 334, b'U'), // UPDATE
    entry!(20, 104, b'W'), // WHEN
    entry!(203, 1377, b'O'), // OVERRIDE
    entry!(152, 1024, b'D'), // DISKS
    entry!(43, 228, b'A'), // ARRAY
    entry!(66, 370, b'A'), // ATTACH
    entry!(189, 1272, b'I'), // INJECTIVE
    entry!(76, 440, b'V'), // VIEW
    entry!(14, 78, b'I'), // IN
    entry!(45, 240, b'A'), // ASC
    entry!(159, 1066, b'P'), // PROFILE
    entry!(137, 911, b'S'), // START
    entry!(161, 1078, b'N'), // NONE
    entry!(47, 249, b'N'), // NULLS
    entry!(33, 171, b'R'), // RIGHT
    entry!(41, 215, b'A'), // ASOF
    entry!(215, 1469, b'H'), // HOST
    entry!(107, 667, b'P'), // PERMANENTLY
    entry!(184, 1239, b'R'), // RANGE
    entry!(166, 1108, b'A'), // ASYNC
    entry!(126, 815, b'T'), // TABLES
    entry!(97, 599, b'N'), // NULL
    entry!(95, 585, b'F'), // FORMAT
    entry!(199, 1357, b'D'), // DIV
    entry!(141, 941, b'D'), // DISTRIBUTED
    entry!(210, 1429, b'F'), // FILL
    entry!(122, 788, b'A'), // AST
    entry!(120, 771, b'E'), // EXPLAIN
    entry!(116, 737, b'M'), // MOVE
    entry!(181, 1216, b'S'), // SOURCE
    entry!(4, 24, b'B'), // BY
    entry!(46, 244, b'D'), // DESC
    entry!(119, 759, b'D'), // DEDUPLICATE
    entry!(40, 210, b'A'), // ANTI
    entry!(130, 853, b'F'), // FUNCTIONS
    entry!(160, 1074, b'R'), // ROW
    entry!(53, 285, b'U'), // UNION
    entry!(213, 1451, b'O'), // OPTION
    entry!(93, 567, b'P'), // PREWHERE
    entry!(12, 64, b'U'), // USING
    entry!(124, 797, b'P'), // PIPELINE
    entry!(52, 280, b'C'), // CUBE
    entry!(205, 1394, b'F'), // FOR
    entry!(70, 398, b'U'), // USE
    entry!(112, 709, b'C'), // CONSTRAINT
    entry!(27, 141, b'E'), // EXISTS
    entry!(13, 70, b'B'), // BETWEEN
    entry!(139, 924, b'R'), // REPLICA
    entry!(17, 92, b'I'), // IS
    entry!(34, 177, b'F'), // FULL
    entry!(64, 358, b'D'), // DROP
    entry!(83, 500, b'R'), // REPLACE
    entry!(105, 652, b'P'), // POPULATE
    None,
    None,
    entry!(147, 986, b'D'), // DNS
    entry!(193, 1307, b'R'), // ROWS
    entry!(78, 454, b'D'), // DICTIONARY
    entry!(92, 557, b'E'), // EPHEMERAL
    entry!(1, 7, b'F'), // FROM
    None,
    entry!(200, 1361, b'M'), // MOD
    entry!(183, 1230, b'L'), // LIFETIME
    entry!(131, 863, b'P'), // PROCESSLIST
    entry!(144, 969, b'M'), // MOVES
    entry!(89, 539, b'P'), // PRIMARY
    entry!(209, 1423, b'R'), // RESET
    entry!(72, 411, b'S'), // SYSTEM
    None,
    None,
];

// A letter's place in the alphabet, in either case.
fn letter(b: u8) -> u8
    ensures { result ≡ b % 32 }
{
    b % 32
}

// The key of a word of 2 to 12 bytes, from its length and four of its letters in either case.
fn key_of(word: &[u8]) -> u8
    requires { (2 ≤ length word.now) × (length word.now ≤ 12) }
    ensures { result ≡ key word.now }
{
    let n = word.len();
    let bucket = (usize::from(letter(word[0])) + 4 * n) % 64;
    let hash = 2 * letter(word[1]) + 5 * letter(word[n / 2]) + letter(word[n - 1]);
    hash.wrapping_add(SHIFTS[bucket])
}

// The one entry that can be equal to a word, by the word's length and key and by its first letter, in which most others differ.
pub(crate) fn candidate(word: &[u8]) -> Option<Entry>
    ensures { result ≡ spec.candidate word.now }
{
    if word.len() < 2 || LONGEST < word.len() {
        return None;
    }
    let entry = ENTRIES[usize::from(key_of(word))]?;
    (entry.first == letter(word[0])).then_some(entry)
}
