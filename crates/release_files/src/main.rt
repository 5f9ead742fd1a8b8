// Opens every file that a release has saved, and says whether it opens to what was saved beside it. The files are never
// changed: the checksum of each is printed, and the gate compares it.
#![tactic(auto)]

mod ciphertexts;
mod files;
mod keys;

use files::Folder;
use saved_head::Kind;

// The keys. Each is tried on what it was made for.
fn tried(folder: Folder) {
    let mut words = [0u32; 8192];
    let mut numbers = [0i32; 2048];
    for name in ["secret", "group_secret"] {
        keys::secret(
            folder,
            name,
            Kind::SecretKey,
            "a secret key of words",
            &mut words,
        );
    }
    keys::secret(
        folder,
        "signed_secret",
        Kind::SignedSecretKey,
        "a secret key of signed numbers",
        &mut numbers,
    );
    keys::public_key(folder, "public_key", "secret");
}

fn opened(folder: Folder) {
    let mut words = [0u32; 8192];
    let mut numbers = [0i32; 2048];
    for name in ["fresh", "summed", "packed", "public"] {
        ciphertexts::opened(folder, name, "secret", &mut words);
    }
    ciphertexts::opened(folder, "signed_fresh", "signed_secret", &mut numbers);
}

fn switched(folder: Folder) {
    keys::switching_key(folder, "switching_key", "summed", "switched");
    keys::switching_key(
        folder,
        "signed_switching_key",
        "signed_fresh",
        "signed_switched",
    );
    let mut words = [0u32; 8192];
    for name in ["switched", "signed_switched"] {
        ciphertexts::opened(folder, name, "group_secret", &mut words);
    }
}

// Sums of other numbers of encryptions, which a release saves from the sixth on.
fn summed(folder: Folder) {
    let mut words = [0u32; 8192];
    ciphertexts::opened(folder, "total", "secret", &mut words);
    keys::switching_key(folder, "switching_key", "total", "switched_total");
    ciphertexts::opened(folder, "switched_total", "group_secret", &mut words);
}

// The files that every release has saved.
fn told(folder: Folder) {
    tried(folder);
    opened(folder);
    switched(folder);
}

fn main(rt: HostRuntime) {
    for path in [
        "release_1/native/",
        "release_1/prime/",
        "release_1/power/",
        "release_3/native/",
        "release_3/prime/",
    ] {
        told(Folder { rt: &rt, path });
    }
    for path in ["release_6/native/", "release_6/prime/", "release_6/power/"] {
        let folder = Folder { rt: &rt, path };
        told(folder);
        summed(folder);
    }
}
