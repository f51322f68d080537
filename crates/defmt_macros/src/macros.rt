//! The macros.

/// Puts one argument to a frame: `put!(frame, table, KIND expr)`.
///
/// KIND is `u8` to `u128`, `usize`, `i8` to `i128`, `isize`, `bool`, `char`, `str`, `bytes`, or `value` for a
/// `&Value`. The next slot is of this kind, with `value` of the value's, and the argument fits it. Native integers
/// have 32 bits. The message stays within 2,000 bytes.
#[macro_export]
macro_rules! put {
    ($frame:expr, $table:expr, u8 $e:expr) => {{
        let n: u8 = $e;
        $frame.put_uint($crate::IntSize::W8, n as u128)
    }};
    ($frame:expr, $table:expr, u16 $e:expr) => {{
        let n: u16 = $e;
        $frame.put_uint($crate::IntSize::W16, n as u128)
    }};
    ($frame:expr, $table:expr, u32 $e:expr) => {{
        let n: u32 = $e;
        $frame.put_uint($crate::IntSize::W32, n as u128)
    }};
    ($frame:expr, $table:expr, u64 $e:expr) => {{
        let n: u64 = $e;
        $frame.put_uint($crate::IntSize::W64, n as u128)
    }};
    ($frame:expr, $table:expr, u128 $e:expr) => {
        $frame.put_uint($crate::IntSize::W128, $e)
    };
    ($frame:expr, $table:expr, usize $e:expr) => {{
        let n: usize = $e;
        $frame.put_uint($crate::IntSize::Native, n as u128)
    }};
    ($frame:expr, $table:expr, i8 $e:expr) => {{
        let n: i8 = $e;
        $frame.put_int($crate::IntSize::W8, n as i128)
    }};
    ($frame:expr, $table:expr, i16 $e:expr) => {{
        let n: i16 = $e;
        $frame.put_int($crate::IntSize::W16, n as i128)
    }};
    ($frame:expr, $table:expr, i32 $e:expr) => {{
        let n: i32 = $e;
        $frame.put_int($crate::IntSize::W32, n as i128)
    }};
    ($frame:expr, $table:expr, i64 $e:expr) => {{
        let n: i64 = $e;
        $frame.put_int($crate::IntSize::W64, n as i128)
    }};
    ($frame:expr, $table:expr, i128 $e:expr) => {
        $frame.put_int($crate::IntSize::W128, $e)
    };
    ($frame:expr, $table:expr, isize $e:expr) => {{
        let n: isize = $e;
        $frame.put_int($crate::IntSize::Native, n as i128)
    }};
    ($frame:expr, $table:expr, bool $e:expr) => {
        $frame.put_bool($e)
    };
    ($frame:expr, $table:expr, char $e:expr) => {
        $frame.put_char($e)
    };
    ($frame:expr, $table:expr, str $e:expr) => {
        $frame.put_str($e)
    };
    ($frame:expr, $table:expr, bytes $e:expr) => {
        $frame.put_bytes($e)
    };
    ($frame:expr, $table:expr, value $e:expr) => {
        $frame.put_value($table, $e)
    };
}

/// Puts a whole message of a tag: what the macros of the levels and of println expand to.
#[macro_export]
macro_rules! message_of {
    ($tag:ident, $buf:expr, $table:expr, $site:expr, $place:expr, $stamp:expr; all $args:expr) => {{
        let table = $table;
        let place = $place;
        let stamp = $stamp;
        let site = $site;
        site.suits(table, &$crate::Tag::$tag, place, stamp);
        $crate::put_message($buf, table, site, place, stamp, $args)
    }};
    ($tag:ident, $buf:expr, $table:expr, $site:expr, $place:expr, $stamp:expr; $($kind:ident $arg:expr),* $(,)?) => {{
        let table = $table;
        let place = $place;
        let stamp = $stamp;
        let site = $site;
        site.suits(table, &$crate::Tag::$tag, place, stamp);
        let mut frame = $crate::Frame::begin($buf, site, place, stamp);
        $($crate::put!(frame, table, $kind $arg);)*
        frame.end()
    }};
}

/// Logs a message of the level trace: `trace!(buf, table, site, place, stamp; KIND expr, ..)`, or
/// `trace!(buf, table, site, place, stamp; all args)` with the values of all slots. Gives the length of the message,
/// which stands at the buffer's front.
///
/// The site is of an entry of the table with this tag, and the place and the stamp suit the table. The buffer has at
/// least 2,000 bytes.
#[macro_export]
macro_rules! trace {
    ($($rest:tt)*) => {
        $crate::message_of!(Trace, $($rest)*)
    };
}

/// Logs a message of the level debug: `debug!(buf, table, site, place, stamp; KIND expr, ..)`, or
/// `debug!(buf, table, site, place, stamp; all args)` with the values of all slots. Gives the length of the message,
/// which stands at the buffer's front.
///
/// The site is of an entry of the table with this tag, and the place and the stamp suit the table. The buffer has at
/// least 2,000 bytes.
#[macro_export]
macro_rules! debug {
    ($($rest:tt)*) => {
        $crate::message_of!(Debug, $($rest)*)
    };
}

/// Logs a message of the level info: `info!(buf, table, site, place, stamp; KIND expr, ..)`, or
/// `info!(buf, table, site, place, stamp; all args)` with the values of all slots. Gives the length of the message,
/// which stands at the buffer's front.
///
/// The site is of an entry of the table with this tag, and the place and the stamp suit the table. The buffer has at
/// least 2,000 bytes.
#[macro_export]
macro_rules! info {
    ($($rest:tt)*) => {
        $crate::message_of!(Info, $($rest)*)
    };
}

/// Logs a message of the level warn: `warn!(buf, table, site, place, stamp; KIND expr, ..)`, or
/// `warn!(buf, table, site, place, stamp; all args)` with the values of all slots. Gives the length of the message,
/// which stands at the buffer's front.
///
/// The site is of an entry of the table with this tag, and the place and the stamp suit the table. The buffer has at
/// least 2,000 bytes.
#[macro_export]
macro_rules! warn {
    ($($rest:tt)*) => {
        $crate::message_of!(Warn, $($rest)*)
    };
}

/// Logs a message of the level error: `error!(buf, table, site, place, stamp; KIND expr, ..)`, or
/// `error!(buf, table, site, place, stamp; all args)` with the values of all slots. Gives the length of the message,
/// which stands at the buffer's front.
///
/// The site is of an entry of the table with this tag, and the place and the stamp suit the table. The buffer has at
/// least 2,000 bytes.
#[macro_export]
macro_rules! error {
    ($($rest:tt)*) => {
        $crate::message_of!(Error, $($rest)*)
    };
}

/// Logs a message without a level: `println_!(buf, table, site, place, stamp; KIND expr, ..)`, or
/// `println_!(buf, table, site, place, stamp; all args)` with the values of all slots. Gives the length of the message,
/// which stands at the buffer's front.
///
/// The site is of an entry of the table with this tag, and the place and the stamp suit the table. The buffer has at
/// least 2,000 bytes.
#[macro_export]
macro_rules! println_ {
    ($($rest:tt)*) => {
        $crate::message_of!(Println, $($rest)*)
    };
}
