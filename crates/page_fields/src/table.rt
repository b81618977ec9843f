//! A page's table of rows, written once.

/// One read or write for each row of a page's table, in a function's body.
///
/// A row is `NAME KIND AT LEN`, its place and length as literals. The kinds are:
/// - `u32` and `u64`: a number of 4 or 8 bytes, the lowest byte first;
/// - `bytes`: an array of bytes;
/// - `sum`: a `u32` that is read, and not written with the others, since it is their checksum;
/// - `zero`: ignored by the reader, written as zeros;
/// - `skip`: neither read nor written.
///
/// `fields!(read TYPE page; ..)` is a `TYPE` with the value of each row, and `fields!(read TYPE page, more; ..)` also
/// has the variable `more` as its field `more`. `fields!(write value page; ..)` writes the rows of `value` in their
/// order. `fields!(rows; ..)` is the array of the rows' places and lengths, of which the law `tiling` speaks.
#[macro_export]
macro_rules! fields {
    (rows; $($name:ident $kind:ident $at:literal $len:literal),* $(,)?) => {
        [$(($at, $len)),*]
    };

    (read $type:ident $page:ident $(, $more:ident)*; $($rows:tt)*) => {
        $crate::fields!(@read $type $page [$($more: $more,)*] $($rows)*)
    };
    (@read $type:ident $page:ident [$($done:tt)*]) => {
        $type { $($done)* }
    };
    (@read $type:ident $page:ident [$($done:tt)*] $name:ident skip $at:literal $len:literal $(, $($rows:tt)*)?) => {
        $crate::fields!(@read $type $page [$($done)*] $($($rows)*)?)
    };
    (@read $type:ident $page:ident [$($done:tt)*] $name:ident zero $at:literal $len:literal $(, $($rows:tt)*)?) => {
        $crate::fields!(@read $type $page [$($done)*] $($($rows)*)?)
    };
    (@read $type:ident $page:ident [$($done:tt)*] $name:ident $kind:ident $at:literal $len:literal $(,
        $($rows:tt)*)?) => {
        $crate::fields!(@read $type $page [$($done)* $name: $crate::fields!(@get $kind $page $at $len),] $($($rows)*)?)
    };
    (@get sum $page:ident $at:literal $len:literal) => {
        $crate::u32_of($crate::Field::<$at, $len>::get($page))
    };
    (@get u32 $page:ident $at:literal $len:literal) => {
        $crate::u32_of($crate::Field::<$at, $len>::get($page))
    };
    (@get u64 $page:ident $at:literal $len:literal) => {
        $crate::u64_of($crate::Field::<$at, $len>::get($page))
    };
    (@get bytes $page:ident $at:literal $len:literal) => {{
        let mut bytes = [0; $len];
        bytes.copy_from_slice($crate::Field::<$at, $len>::get($page));
        bytes
    }};

    (write $value:ident $page:ident; $($name:ident $kind:ident $at:literal $len:literal),* $(,)?) => {
        $($crate::fields!(@write $value $page $name $kind $at $len);)*
    };
    (@write $value:ident $page:ident $name:ident skip $at:literal $len:literal) => {};
    (@write $value:ident $page:ident $name:ident sum $at:literal $len:literal) => {};
    (@write $value:ident $page:ident $name:ident zero $at:literal $len:literal) => {
        $crate::Field::<$at, $len>::set($page, &[0; $len])
    };
    (@write $value:ident $page:ident $name:ident u32 $at:literal $len:literal) => {
        $crate::Field::<$at, $len>::set($page, &$crate::bytes_of_u32($value.$name))
    };
    (@write $value:ident $page:ident $name:ident u64 $at:literal $len:literal) => {
        $crate::Field::<$at, $len>::set($page, &$crate::bytes_of_u64($value.$name))
    };
    (@write $value:ident $page:ident $name:ident bytes $at:literal $len:literal) => {
        $crate::Field::<$at, $len>::set($page, &$value.$name)
    };
}
