// A row of the list of changes.
use cells::at;
use change_rows::Row;

// Row i, for i below 2^29; past the end of the list it is all 0.
pub(crate) fn row_at(list: &[u32], i: usize) -> Row {
    let n = 8 * (i % 536870912);
    Row {
        kind: at(list, n),
        id: at(list, n + 1),
        first: at(list, n + 2),
        second: at(list, n + 3),
        third: at(list, n + 4),
        fourth: at(list, n + 5),
        fifth: at(list, n + 6),
    }
}
