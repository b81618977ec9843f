//! Bytes have one reading.

ghost use Rattle.std.specs.Prelude.{◌≡◌, List, ℕ};
ghost use Rattle.nbd_words.specs.Options.{AskedOption, AsksOption, IsInfoRequest};
ghost use Rattle.nbd_words.specs.Requests.{AskedRequest, AsksRequest};

/// Bytes begin with one option, or with one request, and with what follows it; and the bytes of INFO and GO have one
/// name and one list of wishes.
pub fn one_reading()
    ensures option { (b : List ℕ) (x y : AskedOption) (r s : List ℕ) → AsksOption b x r → AsksOption b y s
        → (x ≡ y) × (r ≡ s) }
    ensures request { (b : List ℕ) (x y : AskedRequest) (r s : List ℕ) → AsksRequest b x r → AsksRequest b y s
        → (x ≡ y) × (r ≡ s) }
    ensures info { (b name other infos others : List ℕ) → IsInfoRequest b name infos → IsInfoRequest b other others
        → (name ≡ other) × (infos ≡ others) }
{}
