// Letting go of lists of many pages.

/// Lets a list go, its memory first cut down to that of one element.
///
/// The C library keeps blocks as large as any that was freed whole among the small ones from then
/// on, and lists that grow in turn leave holes between them. The part that is cut off goes back to
/// the system as it is, and changes nothing for later blocks.
pub fn release<T: Copy + Drop>(list: Vec<T>) {
    let mut list = list;
    list.truncate(1);
    list.shrink_to_fit();
}
