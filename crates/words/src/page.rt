// The numbers in words: a line for each number from 0 on, and an empty one for a number that means nothing.
#![tactic(auto, unfolding(text::specs::Codes::codes, text::specs::Page::page_of, crate::specs::Words::all_codes, crate::specs::Words::meanings_page, crate::specs::Words::advices_page))]

ghost use Rattle.std.specs.Prelude.{◌≡◌, length};
ghost use Rattle.words.specs.Words.{meanings_page, advices_page};

const MEANINGS: &[u8] = b"\
    0: accepted\n\
    1: more bytes are needed\n\
    2: the frame does not begin with AF 01\n\
    3: the frame's version is not 1\n\
    4: the frame's kind is not 1 to 8\n\
    5: the frame's flags are not 0\n\
    6: the frame's length is malformed\n\
    7: the payload is above 16,384 bytes\n\
    8: this side may not send this kind of frame, or there is no such side\n\
    9: no method has these identifiers\n\
    10: the call is already open\n\
    11: the call is not open\n\
    12: the identifiers differ from the call's\n\
    13: 128 calls are open\n\
    14: the frame or the release is not allowed now\n\
    15: the call table is not good\n\
    16: a frame of the server to a cancelled call, which is dropped\n\
    17: the call's stream has had 65,535 elements\n\
    18: a tally at 4,294,967,295 would rise\n\
    19: the number of tally rows is not that of the methods\n\
    20: an item, count or tail exceeds what remains\n\
    21: a VarUInt is malformed\n\
    22: a bool is neither 0 nor 1\n\
    23: a string is not UTF-8\n\
    24: a map repeats a key\n\
    25: a required field is absent\n\
    26: an inner struct sets an unknown bit\n\
    27: bytes follow the value\n\
    28: a value stands at depth 17\n\
    29: there is a payload where none belongs\n\
    30: the sheet has too few rows\n\
    31: a map of more than 64 pairs\n\
    \n\
    \n\
    \n\
    \n\
    \n\
    \n\
    \n\
    \n\
    40: the shape of the schema file is wrong\n\
    41: the schema file has too many rows\n\
    42: a type row is at fault\n\
    43: a field is at fault\n\
    44: a method is at fault\n\
    45: the record or the schema file is above 65,536 bytes\n\
    46: the type asked for is no struct\n\
    47: the writer's table does not extend ours\n\
    \n\
    \n\
    50: the sheet or its tail does not fit\n\
    51: a span or the tail lies outside the bytes\n\
    52: the output is too small\n\
    53: the list of spans is too small\n\
    \n\
    \n\
    \n\
    \n\
    \n\
    \n\
    \n\
    \n\
    \n\
    \n\
    \n\
    65: the shape or the order of the index is wrong\n\
    66: the index is for a record of another length\n\
";

const ADVICES: &[u8] = b"\
    Nothing to do.\n\
    The frame is not whole. Where a record stops here, it was cut at its end: salvage it. On a connection, wait for more bytes.\n\
    These bytes are no frame. Where a record stops here, it is damaged: salvage it, and list the copy. On a connection, end it.\n\
    The sender speaks another version of the format, or the bytes are damaged. Ask the carrier which version it sends.\n\
    The sender uses a kind that the format has not, or the bytes are damaged. When you write a frame, give it a kind from 1 to 8.\n\
    The sender sets a flag that the format has not, or the bytes are damaged. Ask the carrier what the flag means.\n\
    A length has more bytes than it needs, or more than a length may have. Ask the carrier to write lengths in their shortest form.\n\
    The value is too large for a frame. Ask the sender to split its batch; as the sender, write it as several values.\n\
    A client sent what a server sends, or a server what a client sends; or the entry's side is neither C nor S. Look at who wrote the entry.\n\
    Our schema file has no such method. Ask the carrier for its present schema file, and compare the two with arf extends.\n\
    The call's number was taken for a new call before the old one had ended. The client has to take another number, or release a call that it cancelled.\n\
    The call has ended, or was never opened, or its opening was refused. Look at the earlier lines of this call.\n\
    The frame names another method than its call was opened with. The sender has mixed up two calls: tell the carrier both lines.\n\
    No more calls fit the table. Wait until a call has ended, or release one that was cancelled.\n\
    The frame comes too early, too late or once too often, or its method has no such stream; or a call to release was not cancelled. Look at the call's earlier lines.\n\
    Something else than the library has written to the call table, or it was lent too few cells. Start the connection anew with a fresh table.\n\
    We cancelled the call, and this answer was already on its way. Nothing to do; what it says was not read.\n\
    No more elements fit this call. End it, and open another one for the rest.\n\
    The tally row of the method is full. Take the calls that have ended out of it, keep their figures, and call again: nothing has changed.\n\
    Lend one tally row for each method of the schema file.\n\
    The payload ends before its value does, or a length in it is wrong. Tell the carrier the frame and the place in its payload.\n\
    A length or a count has more bytes than it needs, or more than it may have. Ask the carrier to write them in their shortest form.\n\
    The sender wrote another byte where a truth value belongs. Tell the carrier the frame and the place in its payload.\n\
    The sender wrote a text in another encoding. Tell the carrier the frame and the place where the text starts.\n\
    The sender wrote a key twice, so that its value is in doubt. Tell the carrier the frame and the place of the later key.\n\
    The sender left out a field that our schema file requires. Ask the carrier for its present schema file, and compare the two with arf extends.\n\
    The carrier has added a field to a struct inside the value, and our schema file cannot tell where it ends. Get the carrier's schema file, and read with both.\n\
    The payload is longer than its value by our schema file. Ask the carrier for its present schema file, and compare the two with arf extends.\n\
    Values may lie in each other 16 deep. Ask the sender for a flatter value.\n\
    A close, a CANCEL or the answer of a method without output has to be empty. The call has ended; tell the carrier the frame.\n\
    The value is right, and has more rows than were lent. A program calls again with a longer sheet; a listing lends 4,096 rows, and stops here.\n\
    Ask the sender to split the map. A map of more pairs takes too long to read.\n\
    \n\
    \n\
    \n\
    \n\
    \n\
    \n\
    \n\
    \n\
    The file is no schema file, or was cut or changed on its way. Get it anew.\n\
    A schema file has at most 256 types, 2,048 fields and 256 methods. Ask whoever made it for a smaller one.\n\
    The place is the number of the type row, counted from 0. Tell whoever made the schema file.\n\
    The place is the number of the field, counted from 0 over the whole file. Tell whoever made the schema file.\n\
    The place is the number of the method, counted from 0. Tell whoever made the schema file.\n\
    Cut a record between two entries, and take its parts one by one. A schema file of this length is none: get it anew.\n\
    A value is read and written as a struct of the schema file. Ask for the number of a type row of kind 16.\n\
    The carrier's schema file has lost or changed something that ours has. Ask the carrier for the file that goes with what it sends.\n\
    \n\
    \n\
    The rows do not show one value of the type asked for. The place is the row, counted from 0; for a tail, and for a value without rows, it is 0.\n\
    A row's place and length go beyond the bytes that were lent with the sheet. Lend the bytes that the sheet was read from.\n\
    Lend a longer output, and call again: nothing was written. No payload has more than 16,384 bytes, and no frame more than 16,412.\n\
    Lend a longer list, and call again: nothing was written. 4,682 cells are enough for any record.\n\
    \n\
    \n\
    \n\
    \n\
    \n\
    \n\
    \n\
    \n\
    \n\
    \n\
    \n\
    The file is no index, or was cut or changed. Make it anew from the record.\n\
    The record has grown or was cut since its index was made, or the index is another record's. Make it anew.\n\
";

// What each number means.
pub fn meanings() -> &'static [u8]
    ensures { (result.now ≡ meanings_page) × (length result.now ≡ 1703) }
{
    MEANINGS
}

// What to do about it.
pub fn advices() -> &'static [u8]
    ensures { (result.now ≡ advices_page) × (length result.now ≡ 5233) }
{
    ADVICES
}
