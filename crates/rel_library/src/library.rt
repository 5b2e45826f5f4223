//! The text of the relation library.

ghost use Rattle.std.specs.Prelude.{◌≡◌, ◌<◌, length};
ghost use Rattle.rel_library.specs.Library.{library};

/// The text of the library: relations on lists, the relations that never and always hold, and the
/// interpreter `evalo` with what it stands on.
pub fn library_text() -> &'static str
    ensures text { result.now ≡ library }
    ensures short { length result.now < 1048576 }
{
    "(defrel (nevero) (nevero))
(defrel (alwayso) (conde (succeed) ((alwayso))))
(defrel (nullo x) (== x '()))
(defrel (conso a d p) (== (cons a d) p))
(defrel (caro p a) (fresh (d) (== (cons a d) p)))
(defrel (cdro p d) (fresh (a) (== (cons a d) p)))
(defrel (pairo p) (fresh (a d) (== (cons a d) p)))
(defrel (listo l)
  (conde
    ((== l '()))
    ((fresh (a d) (== (cons a d) l) (listo d)))))
(defrel (appendo l t out)
  (conde
    ((== '() l) (== t out))
    ((fresh (a d res)
       (== (cons a d) l)
       (== (cons a res) out)
       (appendo d t res)))))
(defrel (membero x l)
  (fresh (a d)
    (== (cons a d) l)
    (conde
      ((== a x))
      ((membero x d)))))
(defrel (rembero x l out)
  (conde
    ((== '() l) (== '() out))
    ((== (cons x out) l))
    ((fresh (a d res)
       (== (cons a d) l)
       (=/= a x)
       (== (cons a res) out)
       (rembero x d res)))))
(defrel (lookupo x env val)
  (fresh (y v rest)
    (== (cons (cons y v) rest) env)
    (conde
      ((== y x) (== v val))
      ((=/= y x) (lookupo x rest val)))))
(defrel (not-in-envo x env)
  (conde
    ((== env '()))
    ((fresh (y v rest)
       (== (cons (cons y v) rest) env)
       (=/= y x)
       (not-in-envo x rest)))))
(defrel (evallisto es env vals)
  (conde
    ((== es '()) (== vals '()))
    ((fresh (e rest v vs)
       (== (cons e rest) es)
       (== (cons v vs) vals)
       (evalo e env v)
       (evallisto rest env vs)))))
(defrel (evalo e env val)
  (conde
    ((symbolo e) (lookupo e env val))
    ((== e `(quote ,val)) (absento 'closure val) (not-in-envo 'quote env))
    ((fresh (es)
       (== e `(list . ,es))
       (not-in-envo 'list env)
       (evallisto es env val)))
    ((fresh (x body)
       (== e `(lambda (,x) ,body))
       (== val `(closure ,x ,body ,env))
       (symbolo x)
       (not-in-envo 'lambda env)))
    ((fresh (rator rand x body env2 a)
       (== e `(,rator ,rand))
       (evalo rator env `(closure ,x ,body ,env2))
       (evalo rand env a)
       (evalo body `((,x . ,a) . ,env2) val)))))
"
}
