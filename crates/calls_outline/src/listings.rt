// Calls of the listing.
ghost use Rattle.std.specs.Prelude.{◌≡◌, ◌≤◌, length};

// Room for the longest record and some bytes after it.
fn record_room() -> [u8; 25640]
    ensures { 25640 ≡ length result }
{
    [0; 25640]
}

// 0, how many bytes a text has, and these.
fn told_text(text: &[u8], len: usize, out: &mut [u32]) -> usize
    requires { len ≤ 512 }
{
    let m = word_bytes::words_of(len);
    if out.len() < m + 2 {
        return 0;
    }
    word_bytes::put(out, 0, 0);
    word_bytes::put(out, 1, len as u32);
    word_bytes::put_bytes(text, out, 2, m);
    m + 2
}

// The listing of a record.
fn listed_record(record: &[u8], out: &mut [u32]) -> usize {
    let l = traylist_text::listing(record);
    let text = l.bytes;
    let len = l.len;
    told_text(&text, len, out)
}

pub(crate) fn listing_call(args: &[u32], out: &mut [u32]) -> usize {
    if args.len() < 1 {
        return 0;
    }
    let n = word_numbers::many(args[0]);
    if 25640 < n {
        return 0;
    }
    let mut bytes = record_room();
    word_bytes::unpack(&args[1..], &mut bytes);
    listed_record(&bytes[..n], out)
}
